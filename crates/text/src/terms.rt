// Terms as text, from the bytes of a part of an image.
// Marks stay numbers, as in `image::part`.
ghost use Rattle.std.specs.Prelude.{◌≡◌, [], ◌∷◌, ◌++◌, ◌+◌, ◌<◌, ◌≤◌, length, get_or};
ghost use Rattle.program.specs.Syntax.{character};
ghost use Rattle.program.specs.Limits.{Mode};
ghost use Rattle.image.specs.Parts.{TermsAt};
ghost use Rattle.symbols.specs.Parts.{SymbolAt};
ghost use Rattle.meaning.specs.Text.{quote, format_symbol, format_kind, format_terms};
ghost use Rattle.text.specs.Fill.{limit};
ghost use Rattle.text.specs.Parts.{VariableAt};
ghost use Rattle.text.specs.FormatTerm.{format_term, gap_before, kind_letter};
ghost use Rattle.text.specs.Written.{written};

use crate::writer::Writer;
use image::number::read32;
use image::part::{name_part, term_len};

pub fn quote_of(code: u32) -> u8
    ensures { result ∷ [] ≡ quote code }
{
    if code == u32::from(b'\'') {
        b'"'
    } else {
        b'\''
    }
}

#[tactic(auto, unfolding(crate::specs::FormatTerm::kind_letter))]
pub fn kind_letter(mark: u8) -> u8
    ensures { result ≡ kind_letter mark }
{
    match mark {
        4 => b's',
        5 => b't',
        _ => b'e',
    }
}

impl<'a> Writer<'a> {
    // A character between quotes.
    fn format_character(&mut self, code: u32)
        requires { (code ≤ 1114111) × (self.old.filled + 6 ≤ limit) }
        ensures { self.new ≡ written self.old (format_symbol (character code)) }
    {
        let q = quote_of(code);
        self.put_byte(q);
        self.put_code(code);
        self.put_byte(q);
    }

    // The symbol at the start of s.
    fn format_symbol(&mut self, s: &[u8])
        requires { SymbolAt s.now × (self.old.filled + length s.now ≤ limit) }
        ensures { (x : SymbolAt s.now) → self.new ≡ written self.old (format_symbol x.symbol) }
    {
        if s[0] == 1 {
            return self.format_character(read32(s, 9));
        }
        self.put_bytes(name_part(&s[9..]));
    }

    // The variable at the start of s.
    fn format_variable(&mut self, s: &[u8])
        requires { VariableAt s.now × (self.old.filled + length s.now ≤ limit) }
        ensures { (x : VariableAt s.now) → self.new ≡ written self.old (format_kind x.kind ++ x.name) }
    {
        self.put_byte(kind_letter(s[0]));
        self.put_byte(b'.');
        self.put_bytes(name_part(&s[9..]));
    }

    // A space, unless the mark that follows is the close.
    #[tactic(auto, unfolding(crate::specs::FormatTerm::gap_before))]
    fn put_gap(&mut self, mark: u8)
        requires { self.old.filled < limit }
        ensures { self.new ≡ written self.old (gap_before mark) }
    {
        if mark != 15 {
            self.put_byte(b' ');
        }
    }

    // The first of the terms at the start of s: not at their close.
    #[cycle(format_term_format_terms)]
    pub fn format_term(&mut self, s: &[u8])
        requires { TermsAt Mode.pattern s.now × (get_or s.now 0 0 ≡ 15 → ⊥) × (self.old.filled + length s.now ≤ limit) }
        ensures { (t : TermsAt Mode.pattern s.now) → self.new ≡ written self.old (format_term t.terms) }
    {
        match s[0] {
            7 => {
                self.put_byte(b'(');
                self.format_terms(&s[9..]);
                self.put_byte(b')');
            }
            0..4 => self.format_symbol(s),
            _ => self.format_variable(s),
        }
    }

    // The terms at the start of s, with a space between two.
    #[cycle(format_term_format_terms)]
    pub fn format_terms(&mut self, s: &[u8])
        requires { TermsAt Mode.pattern s.now × (self.old.filled + length s.now ≤ limit) }
        ensures { (t : TermsAt Mode.pattern s.now) → self.new ≡ written self.old (format_terms t.terms) }
    {
        let mut i: usize = 0;
        while s[i] != 15 {
            let x = &s[i..];
            self.format_term(x);
            i += term_len(x);
            self.put_gap(s[i]);
        }
    }
}
