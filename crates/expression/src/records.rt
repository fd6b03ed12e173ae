// Records with zero spans.
// Marks stay numbers, as in `image::part`.
ghost use Rattle.std.specs.Prelude.{◌≡◌, ◌+◌, ◌≤◌, [], ◌∷◌};
ghost use Rattle.program.specs.Bytes.{put_span};
ghost use Rattle.program.specs.Encode.{put_symbol};
ghost use Rattle.patterns.specs.Marks.{zero_span};
ghost use Rattle.patterns.specs.Meet.{letter};
ghost use Rattle.symbols.specs.Parts.{SymbolAt};
ghost use Rattle.text.specs.Fill.{limit};
ghost use Rattle.text.specs.Written.{written};
ghost use Rattle.expression.specs.Free.{SymbolFits, Ends};

use text::writer::Writer;

// A mark and its span. Inlined: as a call it took a fifth of the instructions of a long expression.
#[inline(always)]
pub fn put_mark(out: &mut Writer<'_>, mark: u8)
    requires { out.old.filled + 9 ≤ limit }
    ensures { out.new ≡ written out.old (mark ∷ put_span zero_span []) }
{
    out.put_byte(mark);
    out.put_bytes(&[0u8; 8]);
}

// Where the symbol at the start of s ends.
fn symbol_end(s: &[u8]) -> usize
    requires { SymbolAt s.now }
    ensures { (x : SymbolAt s.now) → Ends s.now x.symbol result }
{
    if s[0] == 1 {
        return 13;
    }
    10 + s[9] as usize
}

// The symbol at the start of s, as it is spelled there.
pub fn put_symbol(out: &mut Writer<'_>, s: &[u8])
    requires { SymbolFits s.now out.old.filled }
    ensures { (x : SymbolAt s.now) → out.new ≡ written out.old (put_symbol zero_span x.symbol []) }
{
    let end = symbol_end(s);
    put_mark(out, s[0]);
    out.put_bytes(&s[9..end]);
}

// The character A, which a free `s.` or `t.` variable becomes.
pub fn put_letter(out: &mut Writer<'_>)
    requires { out.old.filled + 13 ≤ limit }
    ensures { out.new ≡ written out.old (put_symbol zero_span letter []) }
{
    put_mark(out, 1);
    out.put_bytes(&[b'A', 0, 0, 0]);
}
