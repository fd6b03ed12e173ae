// What the records of all files share: a head of N bytes, which says what is asked and what the answer is, and up to three
// texts that follow it.
ghost use Rattle.std.specs.Prelude.{◌<◌, IfOk};
ghost use Rattle.streams.specs.Counts.{IsPrefixLen};

use std::io;
use std::io::Read;
use streams::read_full;

// What the lent bytes and entries hold before the call: not zero, so that a change is seen.
pub const LENT_BYTE: u8 = 165;

pub const LENT_ENTRY: u32 = 2779096485;

// A text of a record, of so many bytes: they follow, or those before stay.
#[derive(Clone, Copy)]
pub enum Part {
    Follows(usize),
    Stays(usize),
}

pub const NO_PART: Part = Part::Stays(0);

// The question of a record, whose image comes first; `before` is the length of the image of the record before.
pub trait Question<const N: usize>: Copy {
    fn read(head: &[u8; N]) -> Self;

    fn parts(&self, before: usize) -> [Part; 3];

    // Whether the answer is the stored one; an image that is changed for this question is put back.
    fn is_answered(&self, img: &mut [u8], output: &[u8], report: &[u8]) -> bool;
}

pub fn pair(low: u8, high: u8) -> usize
    ensures { result < 65536 }
{
    usize::from(u16::from_le_bytes([low, high]))
}

// An image of that many bytes; a stored 0 says that the image before stays, as the scripts write it.
pub fn image_part(len: usize, before: usize) -> Part {
    if len == 0 {
        Part::Stays(before)
    } else {
        Part::Follows(len)
    }
}

// The part's length, no more than the buffer holds, with its bytes in the buffer.
pub fn read_part<R: Read>(file: &mut R, buf: &mut [u8], part: Part) -> io::Result<usize>
    ensures { IfOk result (λ k. IsPrefixLen k buf.new) }
{
    match part {
        Part::Follows(len) => {
            let n = len.min(buf.len());
            read_full(file, &mut buf[..n])
        }
        Part::Stays(len) => Ok(len.min(buf.len())),
    }
}

// Whether each byte is as it was lent: the first is, and each other is as the one before it. By `all` this took most of a run.
fn is_untouched(bytes: &[u8]) -> bool {
    match bytes.split_first() {
        Some((first, others)) => *first == LENT_BYTE && others == &bytes[..others.len()],
        None => true,
    }
}

// Whether the bytes begin with the text and are as they were lent after it.
pub fn is_written(text: &[u8], bytes: &[u8]) -> bool {
    match bytes.strip_prefix(text) {
        Some(rest) => is_untouched(rest),
        None => false,
    }
}
