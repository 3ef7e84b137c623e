// The listing program: reads an image from standard input and writes its listing, or the line of its refusal, to standard output.

#![tactic(auto)]

ghost use Rattle.std.specs.Prelude.{◌≡◌};
ghost use Rattle.output.specs.Output.{Answers, fitted};
ghost use Rattle.list.specs.Code.Input.{input_text};

use base::{Verdict, part_of};
use listing::{listing, refused};
use output::Written;
use std::io;
use std::io::{Read, Write};

// The most bytes that are taken as an image. One more is read, to see that there are more.
const MOST: usize = 60000;

// The text on an input: 9 where it is too long.
fn text_on(input: &[u8], out: &mut [u8]) -> Written
    ensures { Answers (fitted (input_text input.now) out.old) result out.new }
{
    if MOST < input.len() {
        return refused(Verdict::at(9, 0), out);
    }
    listing(input, out)
}

// The heading and 64 lines of at most 43 bytes have room in the page. Where the input or the output fails, the program ends with the
// error of the system.
fn main(rt: HostRuntime) -> io::Result<()> {
    let mut input = [0u8; 60001];
    let n = io::copy(&mut rt.stdin().take(60001), &mut &mut input[..])?;
    let mut page = [0u8; 4096];
    let r = text_on(part_of(&input, 0, n as usize), &mut page);
    rt.stdout().write_all(part_of(&page, 0, r.len as usize))
}
