// What is wrong with a span, a name or a code, if anything: each rule of the format once. A place may be the end of the body here,
// where `At` asks for a byte.
ghost use Rattle.std.specs.Prelude.{◌≡◌, ◌+◌, ◌-◌, ◌<◌, ◌≤◌, length, drop, true};
ghost use Rattle.program.specs.Limits.{allowed, scalar};
ghost use Rattle.program.specs.Automaton.{scan};
ghost use Rattle.reader.specs.Steps.{refusal_of, span_refusal, name_refusal, code_refusal};

use image::number::read32;
use program::Refusal;

// What is wrong with the span at p.
#[tactic(auto, unfolding(crate::specs::Steps::span_refusal))]
pub fn span_refusal(b: &[u8], p: usize) -> Result<(), Refusal>
    requires { p ≤ length b.now }
    ensures { result ≡ span_refusal b.now p }
{
    if b.len() - p < 8 {
        return Refusal::at(5, b.len());
    }
    if read32(b, p + 4) < read32(b, p) {
        return Refusal::at(8, p);
    }
    Ok(())
}

// A byte that a name allows, or that a number does: one flag tells them apart, as in the definitions' `allowed` and `scan`.
#[tactic(auto, unfolding(program::specs::Limits::allowed))]
fn is_allowed(number: bool, x: u8) -> bool
    ensures { result ≡ allowed number x }
{
    if number {
        matches!(x, 48..=57)
    } else {
        matches!(x, 33..=126)
    }
}

// The first of n bytes from p on that no name allows, or the end where they run past it.
fn scan_refusal(b: &[u8], p: usize, n: usize, number: bool) -> Result<(), Refusal>
    requires { (p ≤ length b.now) × (n < 256) }
    ensures { result ≡ refusal_of (length b.now) (scan number n (drop p b.now)) }
{
    for i in 0..n {
        if b.len() - p <= i {
            return Refusal::at(5, b.len());
        }
        if !is_allowed(number, b[p + i]) {
            return Refusal::at(6, p + i);
        }
    }
    Ok(())
}

// A code that a character may have.
#[tactic(auto, unfolding(program::specs::Limits::scalar))]
fn is_scalar(c: u32) -> bool
    ensures { result ≡ scalar c }
{
    matches!(c, 0..=55295 | 57344..=1114111)
}

// What is wrong with the name at p, or with the number.
#[tactic(auto, unfolding(crate::specs::Steps::name_refusal))]
pub fn name_refusal(b: &[u8], p: usize, number: bool) -> Result<(), Refusal>
    requires { p < length b.now }
    ensures { result ≡ name_refusal b.now p number }
{
    let k = b[p];
    match k {
        1..=63 => scan_refusal(b, p + 1, usize::from(k), number),
        _ => Refusal::at(6, p),
    }
}

// What is wrong with the code at p.
#[tactic(auto, unfolding(crate::specs::Steps::code_refusal))]
pub fn code_refusal(b: &[u8], p: usize) -> Result<(), Refusal>
    requires { p ≤ length b.now }
    ensures { result ≡ code_refusal b.now p }
{
    if b.len() - p < 4 {
        return Refusal::at(5, b.len());
    }
    if is_scalar(read32(b, p)) {
        Ok(())
    } else {
        Refusal::at(7, p)
    }
}
