// Whether two sequences of terms have the same text, letter by letter on the image's own bytes. An
// identifier may be spelled as a variable is, so tokens that differ may print the same. A code is a number with a bound, as the
// writing end has it.
// Marks stay numbers, as in `image::part`.
#![tactic(auto)]

ghost use Rattle.std.specs.Prelude.{◌≡◌, true, cond, ◌&&◌, ◌∷◌, ◌+◌, ◌<◌, ◌≤◌, eqb, length, get_or};
ghost use Rattle.program.specs.Syntax.{character};
ghost use Rattle.program.specs.Limits.{Mode};
ghost use Rattle.image.specs.Parts.{TermsAt, token_length, closes_after};
ghost use Rattle.patterns.specs.Names.{eq_bytes};
ghost use Rattle.meaning.specs.Text.{utf8, format_symbol, format_terms};
ghost use Rattle.text.specs.FormatTerm.{kind_letter};
ghost use Rattle.compare.specs.Letters.{token_name, token_text, letters, TokenIn, part, is_last, StandsIn, SameContent, SameLetters, DifferFrom};

use image::number::read32;
use image::part::{closes_after, token_len};
use text::emit::{lead_of_four, lead_of_three, lead_of_two, trail};
use text::terms::{kind_letter, quote_of};

// How many bytes a code has in UTF-8.
fn code_len(code: u32) -> usize
    ensures { result ≡ length (utf8 code) }
{
    match code {
        ..=0x7f => 1,
        ..=0x7ff => 2,
        ..=0xffff => 3,
        _ => 4,
    }
}

// Byte k of a code in UTF-8.
fn code_byte(code: u32, k: usize) -> u8
    requires { (code ≤ 1114111) × (k < length (utf8 code)) }
    ensures { result ≡ get_or (utf8 code) k 0 }
{
    match code {
        ..=0x7f => code as u8,
        ..=0x7ff => match k {
            0 => lead_of_two(code),
            _ => trail(code),
        },
        ..=0xffff => match k {
            0 => lead_of_three(code),
            1 => trail(code >> 6),
            _ => trail(code),
        },
        _ => match k {
            0 => lead_of_four(code),
            1 => trail(code >> 12),
            2 => trail(code >> 6),
            _ => trail(code),
        },
    }
}

// Letter k of a character between quotes.
fn character_letter(code: u32, k: usize) -> u8
    requires { (code ≤ 1114111) × (k < length (format_symbol (character code))) }
    ensures { result ≡ get_or (format_symbol (character code)) k 0 }
{
    if 0 < k && k <= code_len(code) {
        code_byte(code, k - 1)
    } else {
        quote_of(code)
    }
}

// Letter k of a variable: its kind's letter, a point, its name.
fn variable_letter(x: &[u8], k: usize) -> u8
    requires { (10 + get_or x.now 9 0 < length x.now) × (k < 2 + get_or x.now 9 0) }
    ensures { result ≡ get_or (kind_letter (get_or x.now 0 0) ∷ 46 ∷ token_name x.now) k 0 }
{
    match k {
        0 => kind_letter(x[0]),
        1 => b'.',
        _ => x[8 + k],
    }
}

// The name of the token at the start of x.
fn token_name(x: &[u8]) -> &[u8]
    requires { 10 + get_or x.now 9 0 ≤ length x.now }
    ensures { result.now ≡ token_name x.now }
{
    let end = 10 + usize::from(x[9]);
    &x[10..end]
}

// A token at the start of some bytes, with another one behind it.
#[derive(Clone, Copy)]
struct Token<'a> {
    bytes: &'a [u8],
    ghost inside: { TokenIn bytes.now },
}

impl<'a> Token<'a> {
    // How many letters it has by itself.
    fn text_len(self) -> usize
        ensures { result ≡ length (token_text self.entry.bytes.now) }
    {
        let x = self.bytes;
        match x[0] {
            1 => 2 + code_len(read32(x, 9)),
            ..=3 => usize::from(x[9]),
            4..=6 => 2 + usize::from(x[9]),
            _ => 1,
        }
    }

    // Whether its letter k is the last, of n by itself and the space behind them.
    fn is_last(self, k: usize, n: usize) -> bool
        requires { (k < length (letters self.bytes.now)) × (n ≡ length (token_text self.bytes.now)) }
        ensures { result ≡ eqb (k + 1) (length (letters self.entry.bytes.now)) }
    {
        if k + 1 != n {
            return n <= k;
        }
        let x = self.bytes;
        x[0] == 7 || x[token_len(x)] == 15
    }

    // Its letter k by itself.
    fn text_letter(self, k: usize) -> u8
        requires { k < length (token_text self.bytes.now) }
        ensures { result ≡ get_or (token_text self.entry.bytes.now) k 0 }
    {
        let x = self.bytes;
        match x[0] {
            1 => character_letter(read32(x, 9), k),
            ..=3 => x[10 + k],
            4..=6 => variable_letter(x, k),
            7 => b'(',
            _ => b')',
        }
    }

    // Its letter k, or the space behind the n that it has by itself.
    fn letter(self, k: usize, n: usize) -> u8
        requires { (k < length (letters self.bytes.now)) × (n ≡ length (token_text self.bytes.now)) }
        ensures { result ≡ get_or (letters self.entry.bytes.now) k 0 }
    {
        if k < n { self.text_letter(k) } else { b' ' }
    }

    // Its length, if another of its mark holds the same: then both are as long, and print the same by themselves.
    fn same_content(self, other: Token) -> Option<usize>
        requires { get_or self.bytes.now 0 0 ≡ get_or other.bytes.now 0 0 }
        ensures { SameContent self.entry.bytes.now other.entry.bytes.now result }
    {
        let x = self.bytes;
        let y = other.bytes;
        match x[0] {
            7.. => Some(token_len(x)),
            1 => (read32(x, 9) == read32(y, 9)).then_some(token_len(x)),
            _ => (token_name(x) == token_name(y)).then_some(token_len(x)),
        }
    }

    // The same, if the same mark stands behind both, and so a space behind both or neither.
    fn same_letters(self, other: Token) -> Option<usize>
        requires { get_or self.bytes.now 0 0 ≡ get_or other.bytes.now 0 0 }
        ensures { SameLetters self.entry.bytes.now other.entry.bytes.now result }
    {
        let n = self.same_content(other)?;
        (self.bytes[n] == other.bytes[n]).then_some(n)
    }
}

// Where a letter stands: the nth of the token at `token`, with so many closes to come from that token on.
#[derive(Clone, Copy)]
struct LetterAt {
    token: usize,
    nth: usize,
    closes: usize,
}

impl LetterAt {
    // Whether the last close stands there, behind the last letter.
    fn is_end(self, s: &[u8]) -> bool
        requires { self.token < length s.now }
        ensures { result ≡ (eqb (get_or (part s.now self.token) 0 0) 15 && eqb self.closes 1) }
    {
        s[self.token] == 15 && self.closes == 1
    }

    // The place behind it, where the token x has n letters by itself: the next letter, or the first of the token behind.
    fn behind(self, x: Token, n: usize) -> LetterAt
        requires { (self.nth < length (letters x.bytes.now)) × (n ≡ length (token_text x.bytes.now)) × (0 < self.closes) × (self.closes < 18446744073709551615) × (self.token + token_length x.bytes.now < 18446744073709551616) }
        ensures token { result.token ≡ self.token + cond (eqb (self.nth + 1) (length (letters x.entry.bytes.now))) (token_length x.entry.bytes.now) 0 }
        ensures nth { result.nth ≡ cond (eqb (self.nth + 1) (length (letters x.entry.bytes.now))) 0 (self.nth + 1) }
        ensures closes { result.closes ≡ cond (eqb (self.nth + 1) (length (letters x.entry.bytes.now))) (closes_after (get_or x.entry.bytes.now 0 0) self.closes) self.closes }
    {
        if x.is_last(self.nth, n) {
            LetterAt {
                token: self.token + token_len(x.bytes),
                nth: 0,
                closes: closes_after(x.bytes[0], self.closes),
            }
        } else {
            LetterAt {
                nth: self.nth + 1,
                ..self
            }
        }
    }

    // The letter there; the place goes on to the one behind it.
    fn next(&mut self, s: &[u8]) -> u8
        requires { StandsIn s.now self.old.token self.old.nth × (0 < self.old.closes) × (self.old.closes ≤ length s.now) }
        ensures letter { result ≡ get_or (letters (part s.now self.old.token)) self.old.nth 0 }
        ensures token { self.new.token ≡ self.old.token + cond (is_last s.now self.old.token self.old.nth) (token_length (part s.now self.old.token)) 0 }
        ensures nth { self.new.nth ≡ cond (is_last s.now self.old.token self.old.nth) 0 (self.old.nth + 1) }
        ensures closes { self.new.closes ≡ cond (is_last s.now self.old.token self.old.nth) (closes_after (get_or (part s.now self.old.token) 0 0) self.old.closes) self.old.closes }
    {
        let x = Token {
            bytes: &s[self.token..],
        };
        let n = x.text_len();
        let letter = x.letter(self.nth, n);
        *self = self.behind(x, n);
        letter
    }
}

// The first token at which two sequences of terms may print otherwise, at the same place in both. `None` where they have the same tokens
// throughout, whatever their spans, as most have whose texts are the same.
fn first_difference(a: &[u8], b: &[u8]) -> Option<LetterAt>
    requires { TermsAt Mode.pattern a.now × TermsAt Mode.pattern b.now }
    ensures { (t : TermsAt Mode.pattern a.now) (u : TermsAt Mode.pattern b.now) → DifferFrom t u result }
{
    let mut at = LetterAt {
        token: 0,
        nth: 0,
        closes: 1,
    };
    if a[0] != b[0] {
        return Some(at);
    }
    loop {
        let x = &a[at.token..];
        let y = &b[at.token..];
        let closes = closes_after(x[0], at.closes);
        if closes == 0 {
            return None;
        }
        let Some(n) = (Token { bytes: x }).same_letters(Token { bytes: y }) else {
            return Some(at);
        };
        at = LetterAt {
            token: at.token + n,
            nth: 0,
            closes,
        };
    }
}

// Whether the terms at the start of a and those at the start of b have the same text. Letters are compared from the first token that
// differs on, since all before it are the same.
pub fn same_text(a: &[u8], b: &[u8]) -> bool
    requires { TermsAt Mode.pattern a.now × TermsAt Mode.pattern b.now }
    ensures { (t : TermsAt Mode.pattern a.now) (u : TermsAt Mode.pattern b.now) → result ≡ eq_bytes (format_terms t.terms) (format_terms u.terms) }
{
    let Some(mut one) = first_difference(a, b) else {
        return true;
    };
    let mut two = one;
    while !one.is_end(a) {
        if two.is_end(b) {
            return false;
        }
        if one.next(a) != two.next(b) {
            return false;
        }
    }
    two.is_end(b)
}
