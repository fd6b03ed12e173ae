// The bytes of a character in UTF-8, and emission at a place of the lent bytes, which hands back the place after it.
ghost use Rattle.std.specs.Prelude.{◌≡◌, [], ◌∷◌, ◌+◌, ◌/◌, ◌%◌, ◌<◌, ◌≤◌, length};
ghost use Rattle.text.specs.Fill.{Emitted, limit};

use crate::writer::Writer;

// A byte after the first of a code in UTF-8: six bits.
pub fn trail(bits: u32) -> u8
    ensures { result ≡ 128 + bits % 64 }
{
    (128 | (bits & 63)) as u8
}

// The first byte of a code of two bytes, of three, of four.
pub fn lead_of_two(code: u32) -> u8
    requires { code < 2048 }
    ensures { result ≡ 192 + code / 64 }
{
    (192 | (code >> 6)) as u8
}

pub fn lead_of_three(code: u32) -> u8
    requires { code < 65536 }
    ensures { result ≡ 224 + code / 4096 }
{
    (224 | (code >> 12)) as u8
}

pub fn lead_of_four(code: u32) -> u8
    requires { code ≤ 1114111 }
    ensures { result ≡ 240 + code / 262144 }
{
    (240 | (code >> 18)) as u8
}

// One byte.
#[tactic(auto, using(crate::proofs::Written::lent))]
pub fn put_byte(out: &mut [u8], at: usize, b: u8) -> usize
    requires { at < limit }
    ensures { Emitted out.old at (b ∷ []) result out.new }
{
    let mut w = Writer {
        text: out,
        filled: at,
    };
    w.put_byte(b);
    w.filled
}

// A text of bytes.
#[tactic(auto, using(crate::proofs::Written::lent))]
pub fn put_bytes(out: &mut [u8], at: usize, text: &[u8]) -> usize
    requires { at + length text.now ≤ limit }
    ensures { Emitted out.old at text.now result out.new }
{
    let mut w = Writer {
        text: out,
        filled: at,
    };
    w.put_bytes(text);
    w.filled
}
