// The overlap search on two patterns, which stand at places of one body.
// That a body has at most 32,768 bytes is a clause of each function that is lent one. Patterns and fuel go
// side by side, as the definition of the search takes them, which bounds no fuel.
#![tactic(auto)]

mod search;
mod terms;
pub mod way;

ghost use Rattle.std.specs.Prelude.{◌≡◌, ◌/◌, ◌%◌, ◌≤◌, length, drop};
ghost use Rattle.program.specs.Limits.{Mode};
ghost use Rattle.image.specs.Parts.{TermsAt};
ghost use Rattle.patterns.specs.declared.Verdict.{Verdict};
ghost use Rattle.patterns.specs.Search.{start, sequence, patterns_overlap};
ghost use Rattle.rows.specs.Cells.{code_of, costing};
ghost use Rattle.rows.specs.Rows.{Kept};
ghost use Rattle.overlap.specs.Steps.{remembered, behind_verdict};

use patterns::{Found, Verdict};
use rows::pair_cell;
use search::UNLIMITED;

// The fuel of each pair of sequences.
const OVERLAP_FUEL: u32 = 4096;

// What the cycle may use before the rows take over: so many ends of splits and bracket pairs in all, so many of them inside one
// another. Of patterns with more terms than this it may try more.
const ENTRIES: u32 = 64;

const DEPTH: u32 = 12;

const SHORT: usize = 128;

// The verdict so far and then another: Unknown is remembered.
fn remember(earlier: Verdict, v: Verdict) -> Verdict
    ensures { result ≡ remembered earlier v }
{
    match v {
        Verdict::Disjoint | Verdict::Overlap => earlier,
        Verdict::Unknown => Verdict::Unknown,
    }
}

// The verdict on the tails, behind heads with a verdict.
fn behind_verdict(heads: Verdict, v: Verdict) -> Verdict
    ensures { result ≡ behind_verdict heads v }
{
    match (heads, v) {
        (Verdict::Overlap, _) => v,
        (Verdict::Disjoint, _) | (_, Verdict::Disjoint) => Verdict::Disjoint,
        (Verdict::Unknown, _) => Verdict::Unknown,
    }
}

// The verdict of its number.
fn verdict_of(n: u32) -> Verdict
    ensures { (v : Verdict) → n ≡ code_of v → result ≡ v }
{
    match n {
        1 => Verdict::Disjoint,
        2 => Verdict::Overlap,
        _ => Verdict::Unknown,
    }
}

// What a cell says of a search that is entered with this fuel.
fn told(cell: u32, fuel: u32) -> Found
    ensures { (v : Verdict) → cell % 4 ≡ code_of v → result ≡ costing (cell / 4) v fuel }
{
    let cost = cell / 4;
    if fuel < cost {
        return Found {
            verdict: Verdict::Unknown,
            fuel: 0,
        };
    }
    let verdict = verdict_of(cell % 4);
    Found {
        verdict,
        fuel: fuel - cost,
    }
}

// The search on the patterns that stand at p and q of a body: by the cycle within its limits, else by rows in the room from
// `from` on, and where that is too short by the cycle again, as long as it takes.
pub fn overlap_behind(
    b: &[u8],
    p: usize,
    q: usize,
    fuel: u32,
    from: usize,
    room: &mut [u32],
) -> Found
    requires { TermsAt Mode.pattern (drop p b.now) × TermsAt Mode.pattern (drop q b.now) × (length b.now ≤ 32768) × (fuel ≤ 4096) }
    ensures answers { (x : TermsAt Mode.pattern (drop p b.now)) (y : TermsAt Mode.pattern (drop q b.now)) → result ≡ sequence fuel x.terms y.terms }
    ensures keeps { Kept from room.old room.new }
{
    let left = &b[p..];
    let right = &b[q..];
    if let Some(tried) = search::within_limits(left, right, fuel) {
        return tried.found;
    }
    if let Some(cell) = pair_cell(b, left, right, from, room) {
        return told(cell, fuel);
    }
    let whole = search::sequence(left, right, fuel, UNLIMITED);
    whole.unwrap().found
}

// The same in the whole room.
pub fn sequence_overlap(b: &[u8], p: usize, q: usize, fuel: u32, room: &mut [u32]) -> Found
    requires { TermsAt Mode.pattern (drop p b.now) × TermsAt Mode.pattern (drop q b.now) × (length b.now ≤ 32768) × (fuel ≤ 4096) }
    ensures answers { (x : TermsAt Mode.pattern (drop p b.now)) (y : TermsAt Mode.pattern (drop q b.now)) → result ≡ sequence fuel x.terms y.terms }
    ensures keeps { length room.new ≡ length room.old }
{
    overlap_behind(b, p, q, fuel, 0, room)
}

// The same from the fuel of each pair of sequences.
pub fn patterns_overlap(b: &[u8], p: usize, q: usize, room: &mut [u32]) -> Found
    requires { TermsAt Mode.pattern (drop p b.now) × TermsAt Mode.pattern (drop q b.now) × (length b.now ≤ 32768) }
    ensures answers { (x : TermsAt Mode.pattern (drop p b.now)) (y : TermsAt Mode.pattern (drop q b.now)) → result ≡ sequence start x.terms y.terms }
    ensures keeps { length room.new ≡ length room.old }
{
    sequence_overlap(b, p, q, OVERLAP_FUEL, room)
}

// Its verdict alone.
pub fn patterns_verdict(b: &[u8], p: usize, q: usize, room: &mut [u32]) -> Verdict
    requires { TermsAt Mode.pattern (drop p b.now) × TermsAt Mode.pattern (drop q b.now) × (length b.now ≤ 32768) }
    ensures answers { (x : TermsAt Mode.pattern (drop p b.now)) (y : TermsAt Mode.pattern (drop q b.now)) → result ≡ patterns_overlap x.terms y.terms }
    ensures keeps { length room.new ≡ length room.old }
{
    let found = patterns_overlap(b, p, q, room);
    found.verdict
}
