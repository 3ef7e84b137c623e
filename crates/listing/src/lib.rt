// The listing of a set as text in a lent buffer. It knows in which order lines stand; what stands in a line is line.rt's.

#![tactic(auto)]

mod line; // line.rt: the lines of a listing
mod page; // page.rt: bytes and numbers written one after the other

ghost use Rattle.std.specs.Prelude.{◌≡◌};
ghost use Rattle.output.specs.Output.{Answers, fitted};
ghost use Rattle.volume.specs.Run.{image_verdict};
ghost use Rattle.volume.specs.Meaning.{content};
ghost use Rattle.listing.specs.Code.Page.{DidPutPage};
ghost use Rattle.listing.specs.Text.{listing_of, refusal_line, text_of};

use base::Verdict;
use content::{file_behind, file_held, first_file};
use line::{put_heading, put_line, put_refusal};
use output::{Written, done, refusal};
use page::put;
use volume::check;

// The listing of an accepted set has room here: a heading of 40 bytes, and at most 64 lines of at most 43.
const PAGE: usize = 2792;

// Writes the heading and a line for each file of an accepted set.
fn put_listing(out: &mut [u8], image: &[u8]) -> usize
    requires { (image_verdict image.now).number ≡ 0 }
    ensures { DidPutPage out.old 0 (listing_of (content image.now)) out.new result }
{
    let mut end = put_heading(out);
    let mut n: usize = 1;
    let mut next = first_file(image);
    while let Some(f) = next {
        let x = file_held(image, f.walk);
        end = put_line(out, end, image, n, f, x.held);
        n += 1;
        // The blocks are not gone over again: the next file is sought from behind the last of them on.
        next = file_behind(image, f.hdr1, x.end);
    }
    end
}

// The listing of an accepted set, written on a page of its own before the first byte of the lent buffer is.
fn accepted(image: &[u8], out: &mut [u8]) -> Written
    requires { (image_verdict image.now).number ≡ 0 }
    ensures { Answers (fitted (listing_of (content image.now)) out.old) result out.new }
{
    let mut page = [0u8; PAGE];
    let end = put_listing(&mut page, image);
    if out.len() < end {
        return refusal(10);
    }
    put(out, 0, &page[..end]);
    done(end)
}

// The line of a refusal in a lent buffer: 0 and its length, or 10, which changes no byte of the buffer.
pub fn refused(v: Verdict, out: &mut [u8]) -> Written
    ensures { Answers (fitted (refusal_line v) out.old) result out.new }
{
    let mut none = [0u8; 1];
    let size = put_refusal(&mut none, v);
    if out.len() < size {
        return refusal(10);
    }
    put_refusal(out, v);
    done(size)
}

// The listing of an image in a lent buffer, or of a refused one the line that says number and place: 0 and the text's length, or
// 10, which changes no byte of the buffer.
pub fn listing(image: &[u8], out: &mut [u8]) -> Written
    ensures { Answers (fitted (text_of image.now) out.old) result out.new }
{
    let v = check(image);
    if v.number != 0 {
        return refused(v, out);
    }
    accepted(image, out)
}
