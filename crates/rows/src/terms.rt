// Terms of a body, by their places.
// Marks stay numbers, as in `image::part`.
ghost use Rattle.std.specs.Prelude.{◌≡◌, ◌+◌, ◌≤◌, length, get_or, IfSome};
ghost use Rattle.program.specs.Limits.{Mode};
ghost use Rattle.image.specs.Parts.{TermsAt};
ghost use Rattle.patterns.specs.Search.{leftover_overlap, literal_overlap, overlap_of_terms, sequence, size};
ghost use Rattle.rows.specs.Parts.{HeadAt};
ghost use Rattle.rows.specs.Cells.{ended_both};
ghost use Rattle.rows.specs.Rows.{read_at, closing, PatternFrom, Flat, HeadsTold, Listed, Kept};

use crate::numbers::{code_of, word_of};
use image::part::term_len;
use patterns::Verdict;
use symbols::same_symbol;

// Whether the terms up to the close can stand for nothing: only `e.` variables can.
pub fn leftover_overlap(s: &[u8]) -> Verdict
    requires { TermsAt Mode.pattern s.now }
    ensures { (p : TermsAt Mode.pattern s.now) → result ≡ leftover_overlap p.terms }
{
    let mut i: usize = 0;
    loop {
        let x = &s[i..];
        let m = x[0];
        if m == 15 {
            return Verdict::Overlap;
        }
        if m != 6 {
            return Verdict::Disjoint;
        }
        i += term_len(x);
    }
}

// Both orders of an empty pattern and the one at p. Apart from its caller, whose frame stands once for each level of brackets.
#[inline(never)]
pub fn leftover(b: &[u8], p: usize) -> u32
    requires { PatternFrom b.now p }
    ensures { result ≡ ended_both (leftover_overlap (read_at b.now p)) }
{
    let cell = 4 + code_of(leftover_overlap(&b[p..]));
    word_of(cell, cell)
}

// The same from the word of the tail, behind a term with the mark m.
pub fn close_behind(m: u8, w: u32) -> u32
    ensures { result ≡ closing m w }
{
    if m == 6 {
        return w;
    }
    327685
}

// The Rust's, with its flag.
fn literal_overlap(equal: bool) -> Verdict
    ensures { result ≡ literal_overlap equal }
{
    if equal {
        Verdict::Overlap
    } else {
        Verdict::Disjoint
    }
}

// The verdict on two heads that are not both brackets, by their marks. Three loops ask it at each of their turns, and a call of its
// own took a sixtieth more instructions there.
#[inline(always)]
pub fn flat_verdict<'a>(left: &'a [u8], right: &'a [u8]) -> Verdict
    requires { HeadAt left.now × HeadAt right.now × (get_or left.now 0 0 ≡ 7 → get_or right.now 0 0 ≡ 7 → ⊥) }
    ensures { (x : HeadAt left.now) (y : HeadAt right.now) → result ≡ overlap_of_terms sequence x.head y.head }
{
    let m = left[0];
    let n = right[0];
    if m == 7 {
        if n < 5 {
            return Verdict::Disjoint;
        }
        return Verdict::Overlap;
    }
    if n == 7 {
        if m < 5 {
            return Verdict::Disjoint;
        }
        return Verdict::Overlap;
    }
    if 3 < m || 3 < n {
        return Verdict::Overlap;
    }
    literal_overlap(same_symbol(left, right))
}

// The same in both orders.
pub fn flat_heads(b: &[u8], p: usize, q: usize) -> u32
    requires { Flat b.now p q }
    ensures { HeadsTold (read_at b.now p) (read_at b.now q) result }
{
    let cell = code_of(flat_verdict(&b[p..], &b[q..]));
    word_of(cell, cell)
}

// Places of terms that are listed in the room: the first one's entry, and how many there are.
#[derive(Clone, Copy, Debug, PartialEq, Eq)]
pub struct Places {
    pub at: usize,
    pub count: usize,
}

// Lists the places of the terms of the pattern at p, from the entry `at` on, if there are enough.
pub fn list_terms(b: &[u8], p: usize, at: usize, room: &mut [u32]) -> Option<Places>
    requires { PatternFrom b.now p × (length b.now ≤ 32768) }
    ensures lists { IfSome result (λ l. (l.at ≡ at) × (l.at + l.count ≤ length room.new) × Listed b.now room.new l.at l.count (read_at b.now p)) }
    ensures keeps { Kept at room.old room.new }
    ensures suffices { at + size (read_at b.now p) ≤ length room.old → result ≡ None → ⊥ }
{
    if room.len() < at {
        return None;
    }
    let mut q = p;
    let mut k = at;
    while b[q] != 15 {
        if room.len() <= k {
            return None;
        }
        room[k] = q as u32;
        q += term_len(&b[q..]);
        k += 1;
    }
    Some(Places { at, count: k - at })
}

// The list of the pattern at q behind `first`, that of the pattern at p; if the two are one pattern, that list serves for both, so
// that a sentence compared with itself takes no more than its own bytes pay for.
pub fn list_second(b: &[u8], p: usize, q: usize, first: Places, room: &mut [u32]) -> Option<Places>
    requires { PatternFrom b.now q × (length b.now ≤ 32768) × (first.at + first.count ≤ length room.old) × Listed b.now room.old first.at first.count (read_at b.now p) }
    ensures lists { IfSome result (λ l. (l.at ≤ first.at + first.count) × (first.at + first.count ≤ l.at + l.count) × (l.at + l.count ≤ length room.new) × Listed b.now room.new l.at l.count (read_at b.now q)) }
    ensures keeps { Kept (first.at + first.count) room.old room.new }
    ensures suffices { first.at + first.count + size (read_at b.now q) ≤ length room.old → result ≡ None → ⊥ }
{
    if p == q {
        return Some(first);
    }
    list_terms(b, q, first.at + first.count, room)
}
