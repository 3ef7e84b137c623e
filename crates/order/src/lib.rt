// The order of a reel: which kind of item is due after which. It knows no byte of a label.

#![tactic(auto)]

ghost use Rattle.std.specs.Prelude.{◌≡◌, ◌&&◌, ◌+◌, ltb, Some};
ghost use Rattle.base.specs.If.{if_b};
ghost use Rattle.order.specs.Kind.{kind, is_kind};
ghost use Rattle.order.specs.Due.{due_after};
ghost use Rattle.order.specs.Group.{group_after};

// The families of kinds.
pub const OTHER: u32 = 0;

pub const VOL: u32 = 1;

pub const UVL: u32 = 2;

pub const HDR: u32 = 3;

pub const UHL: u32 = 4;

pub const EOF: u32 = 5;

pub const EOV: u32 = 6;

pub const UTL: u32 = 7;

pub const DATA_BLOCK: u32 = 8;

pub const TAPE_MARK: u32 = 9;

pub const END_OF_REEL: u32 = 10;

pub const END_OF_IMAGE: u32 = 11;

// Where an item stands, as far as it decides what a block is: among labels, among those of a header, behind which a mark opens
// the data, or among data blocks.
pub const AMONG_LABELS: u32 = 0;

pub const AMONG_HEADERS: u32 = 1;

pub const AMONG_DATA: u32 = 2;

// What an item is to the order: a family and, for numbered labels, the number; else number 0.
#[derive(Clone, Copy)]
pub struct Kind {
    pub family: u32,
    pub number: u32,
}

// Where in the order of a reel we are. A number counts the optional labels of the group that is open.
#[derive(Clone, Copy)]
pub enum Phase {
    // Before VOL1.
    Reel,
    // Behind VOL n, and behind UVL n.
    Volume(u32),
    UserVolume(u32),
    // Behind HDR1, behind HDR n from 2 on, and behind n UHL.
    FirstHeader,
    Header(u32),
    UserHeader(u32),
    // Between the two marks around the data blocks, and behind the second.
    Data,
    Trailer,
    // Behind EOF1, behind EOF n from 2 on, and behind n UTL.
    FirstEof,
    Eof(u32),
    EofUser(u32),
    // Behind EOV1, behind EOV n from 2 on, and behind n UTL.
    FirstEov,
    Eov(u32),
    EovUser(u32),
    // Behind the mark that closes the trailer labels of a file, and of a section that goes on.
    FileEnd,
    VolumeEnd,
    // Behind the second mark: the end of the last reel is due, or the end of a reel that another follows.
    SetClosed,
    ReelClosed,
    // Behind the end of the last reel, and behind the end of the image.
    Over,
    Accepted,
}

// Whether k is the kind of this family and number.
pub fn is(k: Kind, family: u32, number: u32) -> bool
    ensures { result ≡ is_kind k (kind family number) }
{
    k.family == family && k.number == number
}

// Whether k is one more optional label behind number n: the limit is nine.
fn is_next(k: Kind, family: u32, n: u32) -> bool
    ensures { result ≡ (ltb n 9 && is_kind k (kind family (n + 1))) }
{
    n < 9 && is(k, family, n + 1)
}

// Whether k is one more user label behind n of them: these are counted, not numbered.
fn is_user(k: Kind, family: u32, n: u32) -> bool
    ensures { result ≡ (ltb n 9 && is_kind k (kind family 0)) }
{
    n < 9 && is(k, family, 0)
}

// To that phase where k is of this family and number, else what else is due.
fn either(k: Kind, family: u32, number: u32, phase: Phase, rest: Option<Phase>) -> Option<Phase>
    ensures { result ≡ if_b (is_kind k (kind family number)) (Some phase) rest }
{
    if is(k, family, number) {
        Some(phase)
    } else {
        rest
    }
}

// Behind VOL n.
fn after_volume(n: u32, k: Kind) -> Option<Phase>
    ensures { result ≡ due_after (Phase.Volume n) k }
{
    if is_next(k, VOL, n) {
        return Some(Phase::Volume(n + 1));
    }
    let header = either(k, HDR, 1, Phase::FirstHeader, None);
    either(k, UVL, 1, Phase::UserVolume(1), header)
}

// Behind UVL n.
fn after_user_volume(n: u32, k: Kind) -> Option<Phase>
    ensures { result ≡ due_after (Phase.UserVolume n) k }
{
    if is_next(k, UVL, n) {
        return Some(Phase::UserVolume(n + 1));
    }
    either(k, HDR, 1, Phase::FirstHeader, None)
}

// Behind HDR n.
fn after_header(n: u32, k: Kind) -> Option<Phase>
    ensures { result ≡ due_after (Phase.Header n) k }
{
    if is_next(k, HDR, n) {
        return Some(Phase::Header(n + 1));
    }
    let mark = either(k, TAPE_MARK, 0, Phase::Data, None);
    either(k, UHL, 0, Phase::UserHeader(1), mark)
}

// Behind n UHL.
fn after_user_header(n: u32, k: Kind) -> Option<Phase>
    ensures { result ≡ due_after (Phase.UserHeader n) k }
{
    if is_user(k, UHL, n) {
        return Some(Phase::UserHeader(n + 1));
    }
    either(k, TAPE_MARK, 0, Phase::Data, None)
}

// Behind EOF n.
fn after_eof(n: u32, k: Kind) -> Option<Phase>
    ensures { result ≡ due_after (Phase.Eof n) k }
{
    if is_next(k, EOF, n) {
        return Some(Phase::Eof(n + 1));
    }
    let mark = either(k, TAPE_MARK, 0, Phase::FileEnd, None);
    either(k, UTL, 0, Phase::EofUser(1), mark)
}

// Behind n UTL of a file that ends.
fn after_eof_user(n: u32, k: Kind) -> Option<Phase>
    ensures { result ≡ due_after (Phase.EofUser n) k }
{
    if is_user(k, UTL, n) {
        return Some(Phase::EofUser(n + 1));
    }
    either(k, TAPE_MARK, 0, Phase::FileEnd, None)
}

// Behind EOV n.
fn after_eov(n: u32, k: Kind) -> Option<Phase>
    ensures { result ≡ due_after (Phase.Eov n) k }
{
    if is_next(k, EOV, n) {
        return Some(Phase::Eov(n + 1));
    }
    let mark = either(k, TAPE_MARK, 0, Phase::VolumeEnd, None);
    either(k, UTL, 0, Phase::EovUser(1), mark)
}

// Behind n UTL of a file that goes on.
fn after_eov_user(n: u32, k: Kind) -> Option<Phase>
    ensures { result ≡ due_after (Phase.EovUser n) k }
{
    if is_user(k, UTL, n) {
        return Some(Phase::EovUser(n + 1));
    }
    either(k, TAPE_MARK, 0, Phase::VolumeEnd, None)
}

// The phase behind an item of kind k in phase p, if it is due there.
pub fn due_after(p: Phase, k: Kind) -> Option<Phase>
    ensures { result ≡ due_after p k }
{
    match p {
        Phase::Reel => either(k, VOL, 1, Phase::Volume(1), None),
        Phase::Volume(n) => after_volume(n, k),
        Phase::UserVolume(n) => after_user_volume(n, k),
        Phase::FirstHeader => either(k, HDR, 2, Phase::Header(2), None),
        Phase::Header(n) => after_header(n, k),
        Phase::UserHeader(n) => after_user_header(n, k),
        Phase::Data => {
            let mark = either(k, TAPE_MARK, 0, Phase::Trailer, None);
            either(k, DATA_BLOCK, 0, Phase::Data, mark)
        }
        Phase::Trailer => {
            let volume = either(k, EOV, 1, Phase::FirstEov, None);
            either(k, EOF, 1, Phase::FirstEof, volume)
        }
        Phase::FirstEof => either(k, EOF, 2, Phase::Eof(2), None),
        Phase::Eof(n) => after_eof(n, k),
        Phase::EofUser(n) => after_eof_user(n, k),
        Phase::FirstEov => either(k, EOV, 2, Phase::Eov(2), None),
        Phase::Eov(n) => after_eov(n, k),
        Phase::EovUser(n) => after_eov_user(n, k),
        Phase::FileEnd => {
            let mark = either(k, TAPE_MARK, 0, Phase::SetClosed, None);
            either(k, HDR, 1, Phase::FirstHeader, mark)
        }
        Phase::VolumeEnd => either(k, TAPE_MARK, 0, Phase::ReelClosed, None),
        Phase::SetClosed => either(k, END_OF_REEL, 0, Phase::Over, None),
        Phase::ReelClosed => either(k, END_OF_REEL, 0, Phase::Reel, None),
        Phase::Over => either(k, END_OF_IMAGE, 0, Phase::Accepted, None),
        Phase::Accepted => None,
    }
}

// Where the item behind one of kind k stands, whatever stood before.
pub fn group_after(group: u32, k: Kind) -> u32
    ensures { result ≡ group_after group k }
{
    let family = k.family;
    if family == TAPE_MARK {
        if group == AMONG_HEADERS {
            return AMONG_DATA;
        }
        return AMONG_LABELS;
    }
    if family == DATA_BLOCK {
        return AMONG_DATA;
    }
    if family == HDR {
        return AMONG_HEADERS;
    }
    if family == UHL {
        return AMONG_HEADERS;
    }
    AMONG_LABELS
}
