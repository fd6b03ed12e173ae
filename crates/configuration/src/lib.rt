// Whether two arguments are one configuration, on the image's own bytes.
// Marks stay numbers, as in `image::part`.
#![tactic(auto)]

ghost use Rattle.std.specs.Prelude.{◌≡◌, ◌<◌, ◌≤◌, length, get_or};
ghost use Rattle.program.specs.Limits.{Mode};
ghost use Rattle.image.specs.Parts.{TermsAt};
ghost use Rattle.patterns.specs.Names.{caseless};
ghost use Rattle.patterns.specs.Symbols.{eq_symbol};
ghost use Rattle.symbols.specs.Parts.{SymbolAt};
ghost use Rattle.patterns.specs.Equality.{eq_span};
ghost use Rattle.patterns.specs.Configuration.{same_configuration};
ghost use Rattle.configuration.specs.Lockstep.{same_token, first_name, meets, first_both, alike, names_met, Walked, WalkedTo, SpanAt};

use image::number::{read32, span_at};
use image::part::{closes_after, name_part, token_len};
use symbols::same_name;

// Whether the records at the starts of a and b have the same span.
fn same_span(a: &[u8], b: &[u8]) -> bool
    requires { SpanAt a.now × SpanAt b.now }
    ensures { (x : SpanAt a.now) (y : SpanAt b.now) → result ≡ eq_span x.span y.span }
{
    let x = span_at(a, 1);
    let y = span_at(b, 1);
    x == y
}

// Whether two symbols of one sort, each at the start of its part, are spelled alike.
fn same_spelling(a: &[u8], b: &[u8]) -> bool
    requires { SymbolAt a.now × SymbolAt b.now × (get_or a.now 0 0 ≡ get_or b.now 0 0) }
    ensures { (x : SymbolAt a.now) (y : SymbolAt b.now) → result ≡ eq_symbol x.symbol y.symbol }
{
    if a[0] == 1 {
        read32(a, 9) == read32(b, 9)
    } else {
        name_part(&a[9..]) == name_part(&b[9..])
    }
}

// Whether the first tokens are the same, but for variables' names: identifiers by exact spelling, spans included.
fn same_token(a: &[u8], b: &[u8]) -> bool
    requires { TermsAt Mode.pattern a.now × TermsAt Mode.pattern b.now }
    ensures { (p : TermsAt Mode.pattern a.now) (q : TermsAt Mode.pattern b.now) → result ≡ same_token p.terms q.terms }
{
    let m = a[0];
    if m != b[0] {
        return false;
    }
    match m {
        15 => true,
        ..=3 => same_span(a, b) && same_spelling(a, b),
        _ => same_span(a, b),
    }
}

// Whether s begins with a variable of that name, case ignored.
fn meets_name(s: &[u8], name: &[u8]) -> bool
    requires { TermsAt Mode.pattern s.now }
    ensures { (t : TermsAt Mode.pattern s.now) → result ≡ meets (first_name t.terms) (caseless name.now) }
{
    match s[0] {
        4..=6 => same_name(name_part(&s[9..]), name),
        _ => false,
    }
}

// The places i of a and j of b stay four parameters, here and below: a struct of them would be no plainer, since its invariant speaks of the walk that led there.
// Whether both names are new before i and j, or both are first seen at the same earlier place.
fn first_seen_alike(a: &[u8], b: &[u8], i: usize, j: usize, n: &[u8], m: &[u8]) -> bool
    requires { (i ≤ length a.now) × (j ≤ length b.now) × Walked a.now b.now i j }
    ensures { (w : Walked a.now b.now i j) → result ≡ first_both (caseless n.now) (caseless m.now) (names_met w.steps) }
{
    let mut x: usize = 0;
    let mut y: usize = 0;
    while x < i {
        let s = &a[x..];
        let t = &b[y..];
        let p = meets_name(s, n);
        let q = meets_name(t, m);
        if p {
            return q;
        }
        if q {
            return false;
        }
        x += token_len(s);
        y += token_len(t);
    }
    true
}

// Whether the tokens at i and j are no variables, or variables with the same number.
fn same_numbering(a: &[u8], b: &[u8], i: usize, j: usize) -> bool
    requires { WalkedTo a.now b.now i j }
    ensures { (w : WalkedTo a.now b.now i j) → result ≡ alike (first_name w.one.terms) (first_name w.two.terms) (names_met w.walked.steps) }
{
    let u = &a[i..];
    let v = &b[j..];
    match u[0] {
        4..=6 => first_seen_alike(a, b, i, j, name_part(&u[9..]), name_part(&v[9..])),
        _ => true,
    }
}

// Whether two arguments are equal once variable names are numbered by first appearance.
pub fn same_configuration(a: &[u8], b: &[u8]) -> bool
    requires { TermsAt Mode.pattern a.now × TermsAt Mode.pattern b.now }
    ensures { (p : TermsAt Mode.pattern a.now) (q : TermsAt Mode.pattern b.now) → result ≡ same_configuration p.terms q.terms }
{
    let mut i: usize = 0;
    let mut j: usize = 0;
    let mut closes: usize = 1;
    while 0 < closes {
        let x = &a[i..];
        let y = &b[j..];
        if !same_token(x, y) || !same_numbering(a, b, i, j) {
            return false;
        }
        closes = closes_after(x[0], closes);
        i += token_len(x);
        j += token_len(y);
    }
    true
}
