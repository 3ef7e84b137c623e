// The reading behind an item, field by field. It knows kinds, and places for labels.
ghost use Rattle.std.specs.Prelude.{◌≡◌, true, false, ◌+◌, ◌<◌};
ghost use Rattle.base.specs.If.{if_b};
ghost use Rattle.base.specs.Part.{part};
ghost use Rattle.order.specs.Kind.{hdr, eov, eof, data_block, is_kind};
ghost use Rattle.volume.specs.Fault.{outcome_in};
ghost use Rattle.volume.specs.Code.Place.{label_at};
ghost use Rattle.volume.specs.Code.Walk.{LabelSized, Small, DidRead};

use crate::Reading;
use crate::fault::outcome_in;
use base::part_of;
use order::{DATA_BLOCK, EOF, EOV, HDR, Kind, Phase, is};

// The files begun: a new one is counted at HDR2.
pub(crate) fn files_after(files: u32, continues: bool, k: Kind) -> u32
    requires { files < 4294967295 }
    ensures { result ≡ if_b (is_kind k (hdr 2)) (if_b continues files (files + 1)) files }
{
    if is(k, HDR, 2) {
        if continues {
            return files;
        }
        return files + 1;
    }
    files
}

// Whether the next HDR1 goes on with a file.
pub(crate) fn continues_after(continues: bool, k: Kind) -> bool
    ensures { result ≡ if_b (is_kind k (eov 1)) true (if_b (is_kind k (eof 1)) false continues) }
{
    if is(k, EOV, 1) {
        return true;
    }
    if is(k, EOF, 1) {
        return false;
    }
    continues
}

// The place of the last HDR of that number.
pub(crate) fn header_after(kept: usize, k: Kind, number: u32, start: usize) -> usize
    ensures { result ≡ if_b (is_kind k (hdr number)) start kept }
{
    if is(k, HDR, number) {
        return start;
    }
    kept
}

// The blocks of the section: from 0 behind HDR1.
pub(crate) fn count_after(count: usize, k: Kind) -> usize
    requires { count < 4294967295 }
    ensures { result ≡ if_b (is_kind k data_block) (count + 1) (if_b (is_kind k (hdr 1)) 0 count) }
{
    if is(k, DATA_BLOCK, 0) {
        return count + 1;
    }
    if is(k, HDR, 1) {
        return 0;
    }
    count
}

// What is pending behind an item.
fn pending_after(
    image: &[u8],
    hdr2: usize,
    pending: usize,
    k: Kind,
    start: usize,
    len: usize,
) -> usize
    ensures { result ≡ if_b (is_kind k data_block) (outcome_in (label_at image.now hdr2) pending (part start len image.now)).pending pending }
{
    if is(k, DATA_BLOCK, 0) {
        let o = outcome_in(
            part_of(image, hdr2, 80),
            pending,
            part_of(image, start, len),
        );
        return o.pending;
    }
    pending
}

// The reading behind an item of kind k and phase p that stands at `start` and has no fault.
pub(crate) fn reading_after(
    image: &[u8],
    st: Reading,
    p: Phase,
    k: Kind,
    start: usize,
    len: usize,
) -> Reading
    requires label_sized { LabelSized k len }
    requires small { Small st }
    ensures { DidRead image.now st p k start len result }
{
    Reading {
        hdr1: header_after(st.hdr1, k, 1, start),
        hdr2: header_after(st.hdr2, k, 2, start),
        count: count_after(st.count, k),
        pending: pending_after(image, st.hdr2, st.pending, k, start, len),
        files: files_after(st.files, st.continues, k),
        phase: p,
        continues: continues_after(st.continues, k),
    }
}
