// Patterns that nothing is compared with: variables become the character A or nothing.
// Marks stay numbers, as in `image::part`.
ghost use Rattle.std.specs.Prelude.{◌≡◌, get_or};
ghost use Rattle.program.specs.Limits.{Mode};
ghost use Rattle.image.specs.Parts.{TermsAt};
ghost use Rattle.text.specs.Written.{written};
ghost use Rattle.expression.specs.Free.{free_bytes, first_bytes, FreeAt, FirstAt};

use crate::records::{put_letter, put_mark, put_symbol};
use image::part::term_len;
use text::writer::Writer;

// The first of the terms at the start of s: not at their close.
#[cycle(put_free_put_free_term)]
pub fn put_free_term(out: &mut Writer<'_>, s: &[u8])
    requires { FirstAt s.now out.old.filled × (get_or s.now 0 0 ≡ 15 → ⊥) }
    ensures { (t : TermsAt Mode.pattern s.now) → out.new ≡ written out.old (first_bytes t.terms) }
{
    match s[0] {
        7 => {
            put_mark(out, 7);
            put_free(out, &s[9..]);
            out.put_byte(15);
        }
        6 => {}
        ..4 => put_symbol(out, s),
        _ => put_letter(out),
    }
}

// The terms at the start of s. It stays beside `Writer::format_terms`, whose loop has the same shape but writes other bytes for a term
// and a space between two, since one function of both would take the piece as a closure with a law of its bytes and be longer.
#[cycle(put_free_put_free_term)]
pub fn put_free(out: &mut Writer<'_>, s: &[u8])
    requires { FreeAt s.now out.old.filled }
    ensures { (t : TermsAt Mode.pattern s.now) → out.new ≡ written out.old (free_bytes t.terms) }
{
    let mut i: usize = 0;
    while s[i] != 15 {
        let x = &s[i..];
        put_free_term(out, x);
        i += term_len(x);
    }
}
