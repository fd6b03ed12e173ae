// Equality of names and symbols on an image's own bytes.
#![tactic(auto)]

ghost use Rattle.std.specs.Prelude.{◌≡◌, ◌≤◌, length, drop};
ghost use Rattle.patterns.specs.Names.{lower, eq_bytes, same_name, compare_names};
ghost use Rattle.patterns.specs.Symbols.{significant, same_symbol};
ghost use Rattle.symbols.specs.Parts.{SymbolAt};

use image::number::read32;
use image::part::name_part;
use patterns::NameComparison;

// An ASCII capital's small letter, in the words of the definition of names.
#[tactic(auto, using(crate::proofs::Compared::lowered))]
pub fn small(c: u8) -> u8
    ensures { result ≡ lower c }
{
    c.to_ascii_lowercase()
}

// Two names without regard to ASCII case, up to the first pair of bytes that differs, and how many pairs were compared.
pub fn compare_names(a: &[u8], b: &[u8]) -> NameComparison
    ensures { result ≡ compare_names a.now b.now }
{
    if a.len() != b.len() {
        return NameComparison {
            equal: false,
            compared: 0,
        };
    }
    match a
        .iter()
        .zip(b)
        .position(|(x, y)| !x.eq_ignore_ascii_case(y))
    {
        Some(i) => NameComparison {
            equal: false,
            compared: i + 1,
        },
        None => NameComparison {
            equal: true,
            compared: a.len(),
        },
    }
}

// Whether two names are the same without regard to ASCII case.
pub fn same_name(a: &[u8], b: &[u8]) -> bool
    ensures { result ≡ same_name a.now b.now }
{
    compare_names(a, b).equal
}

// How many zeros the digits begin with.
fn leading_zeros(n: &[u8]) -> usize
    ensures { (result ≤ length n.now) × (drop result n.now ≡ significant n.now) }
{
    n.iter().take_while(|d| **d == b'0').count()
}

// Whether the digits of two numbers say the same whole number.
fn same_number(a: &[u8], b: &[u8]) -> bool
    ensures { result ≡ eq_bytes (significant a.now) (significant b.now) }
{
    a[leading_zeros(a)..] == b[leading_zeros(b)..]
}

// Whether two symbols, each at the start of its part of an image, are equal.
pub fn same_symbol(a: &[u8], b: &[u8]) -> bool
    requires { SymbolAt a.now × SymbolAt b.now }
    ensures { (x : SymbolAt a.now) (y : SymbolAt b.now) → result ≡ same_symbol x.symbol y.symbol }
{
    let m = a[0];
    if m != b[0] {
        return false;
    }
    match m {
        1 => read32(a, 9) == read32(b, 9),
        2 => same_name(name_part(&a[9..]), name_part(&b[9..])),
        _ => same_number(name_part(&a[9..]), name_part(&b[9..])),
    }
}
