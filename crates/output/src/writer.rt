// The cleaned image: the items that are kept, one after another, and the trailer.
// Marks stay numbers, as in `image::part`.
ghost use Rattle.std.specs.Prelude.{◌≡◌, cond, ◌++◌, ◌+◌, ◌<◌, ◌≤◌, length, take, drop};
ghost use Rattle.program.specs.Bytes.{put16, put32};
ghost use Rattle.program.specs.Encode.{put_functions, own_sentence_count, encode};
ghost use Rattle.image.specs.Parts.{Passes, FunctionsAt, Accepted};
ghost use Rattle.told.specs.Kept.{is_kept, kept_functions, kept_program};
ghost use Rattle.output.specs.Items.{Item, after, is_sentence, is_written, sentence_one, kept_one};
ghost use Rattle.output.specs.Written.{FunctionsWritten};

use crate::bytes::{copy_bytes, write16, write32};
use crate::mark::is_kept;
use image::part::{function_count, functions_start, sentence_len, sentences_start};

// The length of the item at the start of s: a function's head, a sentence or a close.
fn item_len(s: &[u8]) -> usize
    requires { Item s.now }
    ensures { (x : Item s.now) → Passes s.now result (after s.now x) }
{
    let m = s[0];
    match m {
        10 => sentence_len(s),
        18 => sentences_start(s),
        _ => 1,
    }
}

// Whether a sentence stands at the start of s.
fn is_sentence(s: &[u8]) -> bool
    ensures { result ≡ is_sentence s.now }
{
    match s.first() {
        Some(m) => *m == 10,
        None => false,
    }
}

// How many of an item's w bytes are written: none of a sentence that is not kept.
fn written_len(s: &[u8], marks: &[u32], i: usize, w: usize) -> usize
    ensures { result ≡ cond (is_written (is_kept marks.now) i s.now) w 0 }
{
    if is_sentence(s) && !is_kept(marks, i) {
        0
    } else {
        w
    }
}

fn sentence_one(s: &[u8]) -> usize
    ensures { result ≡ sentence_one s.now }
{
    usize::from(is_sentence(s))
}

fn kept_one(s: &[u8], marks: &[u32], i: usize) -> usize
    ensures { result ≡ kept_one (is_kept marks.now) i s.now }
{
    usize::from(is_sentence(s) && is_kept(marks, i))
}

// Where the functions that were written end, and how many sentences they have.
#[derive(Clone, Copy)]
pub struct Written {
    pub end: usize,
    pub sentences: usize,
}

// Writes the kept items of the functions that stand from `from` to the end of body, from `from` on.
fn write_functions(body: &[u8], from: usize, marks: &[u32], output: &mut [u8]) -> Written
    requires { (from ≤ length body.now) × (length body.now ≤ length output.old) × FunctionsAt (drop from body.now) }
    ensures { (h : FunctionsAt (drop from body.now)) → FunctionsWritten (put_functions (kept_functions (is_kept marks.now) 0 h.functions)) (own_sentence_count (kept_functions (is_kept marks.now) 0 h.functions)) from output.old result.end result.sentences output.new }
{
    let mut p = from;
    let mut q = from;
    let mut i = 0;
    let mut sentences = 0;
    while p < body.len() {
        let s = &body[p..];
        let w = item_len(s);
        let n = written_len(s, marks, i, w);
        copy_bytes(s, 0, output, q, n);
        sentences += kept_one(s, marks, i);
        i += sentence_one(s);
        q += n;
        p += w;
    }
    Written { end: q, sentences }
}

// Writes the trailer at `at`.
fn write_trailer(output: &mut [u8], at: usize, first: u32, functions: u32, sentences: u32)
    requires { (at + 12 ≤ length output.old) × (at < 4294967296) }
    ensures { output.new ≡ take at output.old ++ put32 at (put32 first (put16 functions (put16 sentences (drop (at + 12) output.old)))) }
{
    write32(output, at, at as u32);
    write32(output, at + 4, first);
    write16(output, at + 8, functions);
    write16(output, at + 10, sentences);
}

// Writes the image of what is kept of img's program, and returns its length. Bytes past it stay as they were.
pub fn write_kept(img: &[u8], marks: &[u32], output: &mut [u8]) -> usize
    requires { Accepted img.now × (length img.now ≤ length output.old) }
    ensures { (a : Accepted img.now) → (result ≡ length (encode (kept_program (is_kept marks.now) a.program))) × (output.new ≡ encode (kept_program (is_kept marks.now) a.program) ++ drop result output.old) }
{
    let n = img.len() - 12;
    let from = functions_start(img);
    let body = &img[..n];
    copy_bytes(body, 0, output, 0, from);
    let done = write_functions(body, from, marks, output);
    let end = done.end;
    let first = (end - from) as u32;
    let functions = function_count(img) as u32;
    let sentences = done.sentences as u32;
    write_trailer(output, end, first, functions, sentences);
    end + 12
}
