// The report's writing end: a text is written behind what is filled, as far as the lent bytes go, and counted in any case.
// A code is a number with a bound and no `char`, which would ask more: that it is no surrogate. That a text ends below the limit is a
// fact of the writing end and the text.
ghost use Rattle.std.specs.Prelude.{◌≡◌, [], ◌∷◌, ◌+◌, ◌<◌, ◌≤◌, length};
ghost use Rattle.meaning.specs.Text.{utf8};
ghost use Rattle.meaning.specs.Decimal.{decimal};
ghost use Rattle.text.specs.Fill.{limit};
ghost use Rattle.text.specs.Written.{written};

use crate::emit::{lead_of_four, lead_of_three, lead_of_two, trail};

#[derive(Drop)]
pub struct Writer<'a> {
    pub text: &'a mut [u8],
    pub filled: usize,
}

impl<'a> Writer<'a> {
    // One byte, if its place is within the lent bytes.
    pub fn put_byte(&mut self, b: u8)
        requires { self.old.filled < limit }
        ensures { self.new ≡ written self.old (b ∷ []) }
    {
        if self.filled < self.text.len() {
            self.text[self.filled] = b;
        }
        self.filled += 1;
    }

    // A text, byte by byte: the library's copy would ask for `memcpy` from outside.
    pub fn put_bytes(&mut self, bytes: &[u8])
        requires { self.old.filled + length bytes.now ≤ limit }
        ensures { self.new ≡ written self.old bytes.now }
    {
        for b in bytes {
            self.put_byte(*b);
        }
    }

    // A character in UTF-8, by shifts and masks as document 01 has it.
    pub fn put_code(&mut self, code: u32)
        requires { (code ≤ 1114111) × (self.old.filled + 4 ≤ limit) }
        ensures { self.new ≡ written self.old (utf8 code) }
    {
        match code {
            0..128 => self.put_byte(code as u8),
            128..2048 => self.put_bytes(&[lead_of_two(code), trail(code)]),
            2048..65536 => { self.put_bytes(&[lead_of_three(code), trail(code >> 6), trail(code)]) }
            _ => {
                self.put_bytes(&[
                    lead_of_four(code),
                    trail(code >> 12),
                    trail(code >> 6),
                    trail(code),
                ])
            }
        }
    }

    // A number in decimal: first the tens.
    pub fn put_decimal(&mut self, n: usize)
        requires { self.old.filled + length (decimal n) ≤ limit }
        ensures { self.new ≡ written self.old (decimal n) }
    {
        if 9 < n {
            self.put_decimal(n / 10);
        }
        self.put_byte(b'0' + (n % 10) as u8);
    }
}
