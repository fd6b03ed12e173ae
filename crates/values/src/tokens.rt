// Tokens: a symbol, the opening of a bracket, a close.
// Marks stay numbers, as in `image::part`.
ghost use Rattle.std.specs.Prelude.{◌≡◌, Bool, true, [], ◌+◌, ◌≤◌, eqb, length, get_or, MatchOption};
ghost use Rattle.std.proofs.Math.Option.{none};
ghost use Rattle.patterns.specs.Marks.{zero_span};
ghost use Rattle.meaning.specs.Inputs.{span_fits, code_fits, name_fits, first_token};
ghost use Rattle.meaning.proofs.Tokens.{put_token};
ghost use Rattle.meaning.proofs.Fronts.{same_token};
ghost use Rattle.text.specs.Fill.{Emitted, limit};
ghost use Rattle.values.specs.Values.{is_read, TokenAt};

use image::part::token_len;
use reader::rules::{code_refusal, name_refusal, span_refusal};
use symbols::same_symbol;
use text::emit::{put_byte, put_bytes};

// Whether a span stands behind the mark.
fn span_fits(s: &[u8]) -> bool
    requires { 1 ≤ length s.now }
    ensures { result ≡ span_fits s.now }
{
    span_refusal(s, 1).is_ok()
}

// Whether a character's code stands behind the span.
fn code_fits(s: &[u8]) -> bool
    requires { 9 ≤ length s.now }
    ensures { result ≡ code_fits s.now }
{
    code_refusal(s, 9).is_ok()
}

// Whether a name stands behind the span: behind a number's mark it has digits only.
fn name_fits(s: &[u8]) -> bool
    requires { 9 ≤ length s.now }
    ensures { result ≡ name_fits (eqb (get_or s.now 0 0) 3) s.now }
{
    9 < s.len() && name_refusal(s, 9, s[0] == 3).is_ok()
}

// Whether there is a token.
fn is_token(s: &[u8]) -> bool
    ensures { result ≡ is_read (first_token s.now) }
{
    if s.is_empty() {
        return false;
    }
    let m = s[0];
    if m == 15 {
        return true;
    }
    if !span_fits(s) {
        return false;
    }
    match m {
        1 => code_fits(s),
        2 | 3 => name_fits(s),
        7 => true,
        _ => false,
    }
}

// Bytes that begin with a token.
#[derive(Clone, Copy)]
pub struct Token<'a> {
    pub bytes: &'a [u8],
    ghost there: { true ≡ is_read (first_token bytes.now) },
}

impl<'a> Token<'a> {
    // The first token, if there is one.
    pub fn first(s: &'a [u8]) -> Option<Token<'a>>
        ensures { MatchOption result (first_token s.now ≡ none) (λ t. t.bytes.now ≡ s.now) }
    {
        if is_token(s) {
            Some(Token { bytes: s })
        } else {
            None
        }
    }

    // How many bytes it has: nothing is checked again.
    pub fn size(self) -> usize
        ensures { (t : TokenAt self.entry.bytes.now) → result ≡ t.reading.size }
    {
        token_len(self.bytes)
    }

    // It is written with a zero span.
    pub fn put(self, out: &mut [u8], at: usize) -> usize
        requires { at + length self.bytes.now ≤ limit }
        ensures { (t : TokenAt self.entry.bytes.now) → Emitted out.old at (put_token zero_span t.reading.token []) result out.new }
    {
        let s = self.bytes;
        let m = s[0];
        let span = put_byte(out, at, m);
        if m == 15 {
            return span;
        }
        let zeros = [0u8; 8];
        let fields = put_bytes(out, span, &zeros);
        let end = self.size();
        put_bytes(out, fields, &s[9..end])
    }

    // Whether another is the same: symbols by their rule, whatever their spans.
    pub fn same(self, other: Token) -> bool
        ensures { (x : TokenAt self.entry.bytes.now) (y : TokenAt other.entry.bytes.now) → result ≡ same_token x.reading.token y.reading.token }
    {
        let a = self.bytes;
        let b = other.bytes;
        let m = a[0];
        if m != b[0] {
            return false;
        }
        match m {
            7 | 15 => true,
            _ => same_symbol(a, b),
        }
    }
}
