// Checks a whole image in one pass: what is still to come lies on a small stack, and the first refusal met is the answer.
// The stack is an array with the number of its frames beside it: as a struct of both, with methods, it costs up to half an instruction a byte more.
// Marks stay numbers, as in `image::part`.
ghost use Rattle.std.specs.Prelude.{◌≡◌, ◌+◌, ◌-◌, ◌<◌, ◌≤◌, length};
ghost use Rattle.program.specs.Automaton.{run, Stack};
ghost use Rattle.program.specs.Decode.{decode, decode_sized};
ghost use Rattle.reader.specs.Tally.{checked_of, tally_of, top_of, Stored, advanced, tally_end};

use crate::at::At;
use crate::turns::{Frame, Frames};
use image::number::{read16, read32};
use program::Refusal;

// The frame on top of n, if there is one.
fn top_of(s: &[Frame], n: usize) -> Option<Frame>
    requires { n ≤ length s.now }
    ensures { result ≡ top_of s.now n }
{
    if n == 0 { None } else { Some(s[n - 1]) }
}

// Stores the frames from n on, and gives how many there are then.
fn store(s: &mut [Frame], n: usize, frames: Frames) -> usize
    requires { n + 3 ≤ length s.old }
    ensures { Stored s.old n frames s.new result }
{
    match frames {
        Frames::Nothing => n,
        Frames::One(e) => {
            s[n] = e;
            n + 1
        }
        Frames::Two(e, f) => {
            s[n] = e;
            s[n + 1] = f;
            n + 2
        }
        Frames::Three(e, f, g) => {
            s[n] = e;
            s[n + 1] = f;
            s[n + 2] = g;
            n + 3
        }
    }
}

// What the trailer has to agree with; `first` is how far the first function's mark lies before the body's end.
#[derive(Clone, Copy, Debug, PartialEq, Eq)]
pub struct Counts {
    pub functions: usize,
    pub sentences: usize,
    pub first: usize,
}

// The counts after a turn at the byte m, with `left` bytes from it on.
fn advanced(c: Counts, top: Option<Frame>, m: u8, left: usize) -> Counts
    requires { (c.functions < 18446744073709551615) × (c.sentences < 18446744073709551615) }
    ensures { result ≡ advanced c top m left }
{
    match top {
        None => {
            if m != 18 {
                return c;
            }
            let first = if c.functions == 0 { left } else { c.first };
            Counts {
                functions: c.functions + 1,
                first,
                ..c
            }
        }
        Some(Frame::Sentences(0)) => {
            if m != 10 {
                return c;
            }
            Counts {
                sentences: c.sentences + 1,
                ..c
            }
        }
        Some(_) => c,
    }
}

// The answer where no byte of `len` is left, with n frames on the stack.
fn tallied(n: usize, c: Counts, len: usize) -> Result<Counts, Refusal>
    ensures { result ≡ tally_end n c len }
{
    if n == 0 { Ok(c) } else { Refusal::at(5, len) }
}

// Reads a whole body: the first refusal, or the counts.
pub fn check_body(b: &[u8]) -> Result<Counts, Refusal>
    ensures { result ≡ tally_of (length b.now) (run Stack.body 0 b.now) }
{
    let mut stack = [Frame::Result(0); 148];
    let mut top: usize = 0;
    let mut at: usize = 0;
    let mut c = Counts {
        functions: 0,
        sentences: 0,
        first: 0,
    };
    while at < b.len() {
        let t = At { b, p: at }.over_terms(&stack, top);
        let e = top_of(&stack, t.n);
        let g = At { b, p: t.at }.turn(c.functions, e)?;
        top = store(&mut stack, t.n.saturating_sub(1), g.frames);
        c = advanced(c, e, b[t.at], b.len() - t.at);
        at = g.to;
    }
    tallied(top, c, b.len())
}

// Refusals 4 to 11 of an image whose size is right.
pub fn check_sized(img: &[u8]) -> Result<(), Refusal>
    requires { (12 ≤ length img.now) × (length img.now ≤ 32768) }
    ensures { result ≡ checked_of (decode_sized img.now) }
{
    let n = img.len() - 12;
    let to_body = read32(img, n) as usize;
    let to_functions = read32(img, n + 4) as usize;
    if to_body != n || to_body < to_functions {
        return Refusal::at(4, 0);
    }
    let c = check_body(&img[..n])?;
    let stated = Counts {
        functions: read16(img, n + 8) as usize,
        sentences: read16(img, n + 10) as usize,
        first: to_functions,
    };
    if c != stated {
        return Refusal::at(11, 0);
    }
    Ok(())
}

// Every refusal that an image by itself can meet.
#[tactic(auto, unfolding(program::specs::Decode::decode, program::specs::Decode::sized, crate::specs::Tally::checked_of))]
pub fn check(img: &[u8]) -> Result<(), Refusal>
    ensures { result ≡ checked_of (decode img.now) }
{
    if img.len() < 12 || 32768 < img.len() {
        return Refusal::at(1, 0);
    }
    check_sized(img)
}
