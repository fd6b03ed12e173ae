// The cycle: "sequence, split and term call one another on falling lengths". It has limits, so that a call ends soon and takes
// little stack; where one is met there is no answer, which is handed up at once. Only what can multiply is counted, the ends
// of splits and the bracket pairs: between two of them the heads go forward in both patterns, so that a search within a limit
// compares at most so many heads as the limit times the shorter pattern.
// Marks stay numbers, as in `image::part`.
ghost use Rattle.std.specs.Prelude.{◌≡◌, ◌+◌, ◌≤◌, length, Option, IfSome, IsSome};
ghost use Rattle.program.specs.Limits.{Mode};
ghost use Rattle.image.specs.Parts.{TermsAt};
ghost use Rattle.patterns.specs.Search.{absorbing_split, overlap_of_terms, sequence};
ghost use Rattle.rows.specs.Parts.{HeadAt};
ghost use Rattle.overlap.specs.Steps.{tried, behind_tried, Answers, Says, Endless};

use crate::terms::count_terms;
use crate::{DEPTH, ENTRIES, OVERLAP_FUEL, SHORT, behind_verdict, remember};
use image::part::term_len;
use patterns::{Found, Verdict};
use rows::terms::{flat_verdict, leftover_overlap};

// What the cycle may still use: so many ends of splits and bracket pairs in all, so many of them inside one another. No limit is a
// depth that none has: an enum of the two goes through memory at each call, and took a fifth more instructions where fuel runs out.
#[derive(Clone, Copy, Debug, PartialEq, Eq)]
pub struct Limits {
    pub entries: u32,
    pub deep: u32,
}

// As much as it takes.
pub const UNLIMITED: Limits = Limits {
    entries: 0,
    deep: u32::MAX,
};

impl Limits {
    // What is left inside one more end or bracket pair, unless a limit is met.
    fn inside(self) -> Option<Limits>
        ensures endless { Endless self → result ≡ Some self }
        ensures less { (Endless self → ⊥) → IfSome result (λ m. (m.entries + 1 ≡ self.entries) × (m.deep + 1 ≡ self.deep)) }
    {
        match self {
            Limits { deep: u32::MAX, .. } => Some(self),
            Limits { entries: 0, .. } | Limits { deep: 0, .. } => None,
            Limits { entries, deep } => Some(Limits {
                entries: entries - 1,
                deep: deep - 1,
            }),
        }
    }
}

// What was found, and how many ends and bracket pairs may still be tried.
#[derive(Clone, Copy, Debug, PartialEq, Eq)]
pub struct Tried {
    pub found: Found,
    pub entries: u32,
}

// A search has ended.
fn ended(verdict: Verdict, fuel: u32, entries: u32) -> Option<Tried>
    ensures { result ≡ Some (tried verdict fuel entries) }
{
    let found = Found { verdict, fuel };
    Some(Tried { found, entries })
}

// What was found on the tails, behind heads with a verdict.
fn behind_heads(heads: Verdict, tails: Option<Tried>) -> Option<Tried>
    ensures { result ≡ behind_tried heads tails }
{
    let t = tails?;
    let verdict = behind_verdict(heads, t.found.verdict);
    ended(verdict, t.found.fuel, t.entries)
}

// The verdict on two heads, neither an `e.` variable, by their marks. What two brackets hold has a fresh fuel.
#[cycle(absorbing_split_overlap_of_terms_sequence)]
fn overlap_of_terms<'a>(left: &'a [u8], right: &'a [u8], limits: Limits) -> Option<Tried>
    requires { HeadAt left.now × HeadAt right.now }
    ensures answers { (x : HeadAt left.now) (y : HeadAt right.now) → Says result (overlap_of_terms sequence x.head y.head) }
    ensures ends { Endless limits → IsSome result }
{
    if left[0] == 7 && right[0] == 7 {
        let inner = limits.inside()?;
        return sequence(&left[9..], &right[9..], OVERLAP_FUEL, inner);
    }
    ended(flat_verdict(left, right), 0, limits.entries)
}

// An `e.` variable before `rest`, against `other`: every end of `other` is tried, the whole first.
#[cycle(absorbing_split_overlap_of_terms_sequence)]
fn absorbing_split<'a>(rest: &'a [u8], other: &'a [u8], fuel: u32, limits: Limits) -> Option<Tried>
    requires { TermsAt Mode.pattern rest.now × TermsAt Mode.pattern other.now }
    ensures answers { (x : TermsAt Mode.pattern rest.now) (y : TermsAt Mode.pattern other.now) → Answers result (absorbing_split sequence fuel x.terms y.terms) }
    ensures ends { Endless limits → IsSome result }
{
    let mut x = other;
    let mut f = fuel;
    let mut left = limits;
    let mut verdict = Verdict::Disjoint;
    loop {
        let inner = left.inside()?;
        let t = sequence(rest, x, f, inner)?;
        if t.found.verdict == Verdict::Overlap {
            return Some(t);
        }
        verdict = remember(verdict, t.found.verdict);
        f = t.found.fuel;
        left.entries = t.entries;
        if x[0] == 15 {
            return ended(verdict, f, left.entries);
        }
        let k = term_len(x);
        x = &x[k..];
    }
}

// Two patterns: their heads in turn, until one is at its close or at an `e.` variable.
#[cycle(absorbing_split_overlap_of_terms_sequence)]
pub fn sequence<'a>(left: &'a [u8], right: &'a [u8], fuel: u32, limits: Limits) -> Option<Tried>
    requires { TermsAt Mode.pattern left.now × TermsAt Mode.pattern right.now }
    ensures answers { (x : TermsAt Mode.pattern left.now) (y : TermsAt Mode.pattern right.now) → Answers result (sequence fuel x.terms y.terms) }
    ensures ends { Endless limits → IsSome result }
{
    let mut x = left;
    let mut y = right;
    let mut rest = limits;
    let mut heads = Verdict::Overlap;
    for f in (0..fuel).rev() {
        let m = x[0];
        let n = y[0];
        if m == 15 {
            return behind_heads(heads, ended(leftover_overlap(y), f, rest.entries));
        }
        if n == 15 {
            return behind_heads(heads, ended(leftover_overlap(x), f, rest.entries));
        }
        if m == 6 {
            let k = term_len(x);
            return behind_heads(heads, absorbing_split(&x[k..], y, f, rest));
        }
        if n == 6 {
            let l = term_len(y);
            return behind_heads(heads, absorbing_split(&y[l..], x, f, rest));
        }
        let t = overlap_of_terms(x, y, rest)?;
        rest.entries = t.entries;
        if t.found.verdict == Verdict::Disjoint {
            return ended(Verdict::Disjoint, f, rest.entries);
        }
        heads = remember(heads, t.found.verdict);
        let k = term_len(x);
        x = &x[k..];
        let l = term_len(y);
        y = &y[l..];
    }
    ended(Verdict::Unknown, 0, rest.entries)
}

// The search within limits: a few ends and bracket pairs, and of long patterns two for each of their terms. Their heads are then
// at most four times the cells of the table that the rows would fill.
pub fn within_limits<'a>(left: &'a [u8], right: &'a [u8], fuel: u32) -> Option<Tried>
    requires { TermsAt Mode.pattern left.now × TermsAt Mode.pattern right.now × (length left.now ≤ 32768) × (length right.now ≤ 32768) }
    ensures { (x : TermsAt Mode.pattern left.now) (y : TermsAt Mode.pattern right.now) → Answers result (sequence fuel x.terms y.terms) }
{
    let few = Limits {
        entries: ENTRIES,
        deep: DEPTH,
    };
    let tried = sequence(left, right, fuel, few);
    if tried.is_some() {
        return tried;
    }
    let terms = count_terms(left) + count_terms(right);
    if terms <= SHORT {
        return None;
    }
    let more = Limits {
        entries: 2 * (terms as u32),
        deep: DEPTH,
    };
    sequence(left, right, fuel, more)
}
