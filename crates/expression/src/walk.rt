// The walk along the search's first success: heads in turn, and at an `e.` variable the first end that meets the rest. The ends are
// found once for each pair of sequences and stand in the room; where none was found the search is asked at each end.
// Marks stay numbers, as in `image::part`.
ghost use Rattle.std.specs.Prelude.{ℕ, suc, ◌+◌, ◌*◌, ◌<◌, ◌≤◌, ◌≡◌, Bool, None, IfSome, [], length, get_or, drop};
ghost use Rattle.program.specs.Limits.{Mode};
ghost use Rattle.image.specs.Parts.{TermsAt};
ghost use Rattle.patterns.specs.Search.{sequence};
ghost use Rattle.rows.specs.Parts.{HeadAt};
ghost use Rattle.rows.specs.Rows.{Kept};
ghost use Rattle.overlap.specs.Way.{Way, in_turn, Taken};
ghost use Rattle.text.specs.Written.{written};
ghost use Rattle.expression.specs.Walk.{meet_bytes, split_bytes, head_bytes, Meets, Splits, Heads, Stepped, Onwards, Ahead, Follows, Followed, end_of};

use crate::free::put_free_term;
use crate::records::put_mark;
use image::part::term_len;
use overlap::overlap_behind;
use overlap::way::{Opening, find_way, split_in};
use patterns::{Found, Verdict};
use text::writer::Writer;

// The ends that are known: where the first of them stands in the room, and how many there are.
#[derive(Clone, Copy)]
pub struct Ends {
    pub next: usize,
    pub known: usize,
}

impl Ends {
    // The first of them, if there is one.
    fn first(self, room: &[u32]) -> Option<Opening>
        requires { self.next + 3 * self.known ≤ length room.now }
        ensures { (result ≡ None → self.known ≡ 0) × IfSome result (λ o. (self.known ≡ 0 → ⊥) × (o.other ≡ get_or room.now (self.next + 1) 0) × (o.fuel ≡ get_or room.now (self.next + 2) 0)) }
    {
        if self.known == 0 {
            return None;
        }
        Some(split_in(room, self.next))
    }
}

// Two patterns, whether they have changed places, the fuel of the search on them, and the ends that they take.
#[derive(Clone, Copy)]
pub struct Step {
    pub left: usize,
    pub right: usize,
    // A flag, because the definition of the meeting takes it as one (`meet_bytes swapped ..`).
    pub swapped: bool,
    pub fuel: u32,
    pub ends: Ends,
}

// What the search says of the patterns at two places: the one question that the walk asks.
fn asked(b: &[u8], p: usize, q: usize, fuel: u32, from: usize, room: &mut [u32]) -> Found
    requires { TermsAt Mode.pattern (drop p b.now) × TermsAt Mode.pattern (drop q b.now) × (length b.now ≤ 32768) × (fuel ≤ 4096) }
    ensures answers { (x : TermsAt Mode.pattern (drop p b.now)) (y : TermsAt Mode.pattern (drop q b.now)) → result ≡ sequence fuel x.terms y.terms }
    ensures keeps { Kept from room.old room.new }
{
    overlap_behind(b, p, q, fuel, from, room)
}

// The ends of the right side in turn, until one meets the rest, the left side; an `e.` variable takes the terms before it. Where none
// does there is no fuel left to go on with.
fn ask(b: &[u8], step: Step, out: &mut Writer<'_>, room: &mut [u32]) -> Step
    requires { Splits b.now step.left step.right step.swapped step.fuel out.old.filled × (length b.now ≤ 32768) × (step.fuel ≤ 4096) }
    ensures steps { (x : TermsAt Mode.pattern (drop step.left b.now)) (y : TermsAt Mode.pattern (drop step.right b.now)) → Stepped b.now out.old (step.left + step.right) step.fuel (split_bytes step.swapped step.fuel x.terms y.terms) result out.new }
    ensures keeps { (result.ends.next ≡ step.ends.next) × (result.ends.known ≡ 0) × Kept step.ends.next room.old room.new }
{
    let mut right = step.right;
    let mut fuel = step.fuel;
    let ends = Ends {
        known: 0,
        ..step.ends
    };
    loop {
        let q = asked(b, step.left, right, fuel, step.ends.next, room);
        let verdict = q.verdict;
        let x = &b[right..];
        if verdict == Verdict::Overlap {
            return Step {
                right,
                fuel,
                ends,
                ..step
            };
        }
        if x[0] == 15 {
            return Step {
                right,
                fuel: 0,
                ends,
                ..step
            };
        }
        fuel = q.fuel;
        put_free_term(out, x);
        right += term_len(x);
    }
}

// The end that meets the rest is known: the `e.` variable takes the terms before it.
fn follow(b: &[u8], other: usize, end: usize, out: &mut Writer<'_>)
    requires { Follows b.now other end out.old.filled × (length b.now ≤ 32768) }
    ensures { (rest fuel left : ℕ) (swapped : Bool) (x : TermsAt Mode.pattern (drop rest b.now)) (y : TermsAt Mode.pattern (drop other b.now)) → Taken b.now rest other fuel (end_of end left) → Followed b.now out.old other (split_bytes swapped fuel x.terms y.terms) swapped x.terms (end_of end left) out.new }
{
    let mut right = other;
    while right != end {
        let x = &b[right..];
        put_free_term(out, x);
        right += term_len(x);
    }
}

// What an `e.` variable takes: up to the end that is known, or as the search says.
fn absorb(b: &[u8], step: Step, out: &mut Writer<'_>, room: &mut [u32]) -> Step
    requires { Splits b.now step.left step.right step.swapped step.fuel out.old.filled × (length b.now ≤ 32768) × (step.fuel ≤ 4096) × Ahead b.now room.old step.ends.next step.ends.known step.left step.right step.fuel × (step.ends.next + 3 * step.ends.known ≤ length room.old) }
    ensures steps { (x : TermsAt Mode.pattern (drop step.left b.now)) (y : TermsAt Mode.pattern (drop step.right b.now)) → Stepped b.now out.old (step.left + step.right) step.fuel (split_bytes step.swapped step.fuel x.terms y.terms) result out.new }
    ensures keeps { Onwards b.now room.old (step.ends.next + 3 * step.ends.known) result × Kept (step.ends.next + 3 * step.ends.known) room.old room.new }
{
    let Some(end) = step.ends.first(room) else {
        return ask(b, step, out, room);
    };
    follow(b, step.right, end.other, out);
    let ends = Ends {
        next: step.ends.next + 3,
        known: step.ends.known - 1,
    };
    Step {
        right: end.other,
        fuel: end.fuel,
        ends,
        ..step
    }
}

// Two heads of which one at least is no bracket: a literal or a bracket beats a variable, and of two literals that of the first
// pattern is written.
fn put_head(out: &mut Writer<'_>, s: &[u8], t: &[u8], swapped: bool)
    requires { Heads s.now t.now swapped out.old.filled × (get_or s.now 0 0 ≡ 7 → get_or t.now 0 0 ≡ 7 → ⊥) }
    ensures { (x : HeadAt s.now) (y : HeadAt t.now) → out.new ≡ written out.old (head_bytes swapped x.head y.head) }
{
    let n = t[0];
    match s[0] {
        7 if n == 5 => put_free_term(out, s),
        7 => {}
        4.. => put_free_term(out, t),
        _ if n == 7 => {}
        _ if swapped && n < 4 => put_free_term(out, t),
        _ => put_free_term(out, s),
    }
}

// Two heads; what two brackets hold meets from a fresh fuel, behind the ends that are known.
#[cycle(advance_meet_put_heads)]
fn put_heads(b: &[u8], step: Step, out: &mut Writer<'_>, room: &mut [u32])
    requires { Heads (drop step.left b.now) (drop step.right b.now) step.swapped out.old.filled × (length b.now ≤ 32768) × (step.ends.next + 3 * step.ends.known ≤ length room.old) }
    ensures writes { (x : HeadAt (drop step.left b.now)) (y : HeadAt (drop step.right b.now)) → out.new ≡ written out.old (head_bytes step.swapped x.head y.head) }
    ensures keeps { Kept (step.ends.next + 3 * step.ends.known) room.old room.new }
{
    if b[step.left] == 7 {
        if b[step.right] == 7 {
            let inside = Step {
                left: step.left + 9,
                right: step.right + 9,
                fuel: 4096,
                ends: Ends {
                    next: step.ends.next + 3 * step.ends.known,
                    known: 0,
                },
                ..step
            };
            put_mark(out, 7);
            meet(b, inside, out, room);
            return out.put_byte(15);
        }
    }
    put_head(out, &b[step.left..], &b[step.right..], step.swapped);
}

// One step: a split, or two heads. The fuel is what is left once the step has spent its 1.
#[cycle(advance_meet_put_heads)]
fn advance(b: &[u8], step: Step, out: &mut Writer<'_>, room: &mut [u32]) -> Step
    requires { Meets b.now step.left step.right step.swapped (suc step.fuel) out.old.filled × (get_or b.now step.left 0 ≡ 15 → ⊥) × (get_or b.now step.right 0 ≡ 15 → ⊥) × (length b.now ≤ 32768) × (step.fuel < 4096) × Way b.now (in_turn room.old step.ends.next step.ends.known []) (suc step.fuel) step.left step.right × (step.ends.next + 3 * step.ends.known ≤ length room.old) }
    ensures steps { (x : TermsAt Mode.pattern (drop step.left b.now)) (y : TermsAt Mode.pattern (drop step.right b.now)) → Stepped b.now out.old (step.left + step.right) step.fuel (meet_bytes step.swapped (suc step.fuel) x.terms y.terms) result out.new }
    ensures keeps { Onwards b.now room.old (step.ends.next + 3 * step.ends.known) result × Kept (step.ends.next + 3 * step.ends.known) room.old room.new }
{
    let i = step.left + term_len(&b[step.left..]);
    let j = step.right + term_len(&b[step.right..]);
    if b[step.left] == 6 {
        return absorb(b, Step { left: i, ..step }, out, room);
    }
    if b[step.right] == 6 {
        let other = Step {
            left: j,
            right: step.left,
            swapped: !step.swapped,
            ..step
        };
        return absorb(b, other, out, room);
    }
    put_heads(b, step, out, room);
    Step {
        left: i,
        right: j,
        ..step
    }
}

// What the patterns at two places meet in, from a fuel: step by step, until one of them is at its close. The ends are found first.
#[cycle(advance_meet_put_heads)]
pub fn meet(b: &[u8], start: Step, out: &mut Writer<'_>, room: &mut [u32])
    requires { Meets b.now start.left start.right start.swapped start.fuel out.old.filled × (length b.now ≤ 32768) × (start.fuel ≤ 4096) × (start.ends.next ≤ length room.old) }
    ensures writes { (x : TermsAt Mode.pattern (drop start.left b.now)) (y : TermsAt Mode.pattern (drop start.right b.now)) → out.new ≡ written out.old (meet_bytes start.swapped start.fuel x.terms y.terms) }
    ensures keeps { Kept start.ends.next room.old room.new }
{
    let next = start.ends.next;
    let known = find_way(b, start.left, start.right, start.fuel, next, room);
    let mut s = Step {
        ends: Ends { next, known },
        ..start
    };
    // The fuel does not run down by one: a split goes on with what its ends have left.
    while 0 < s.fuel {
        if b[s.left] == 15 {
            return;
        }
        if b[s.right] == 15 {
            return;
        }
        s.fuel -= 1;
        s = advance(b, s, out, room);
    }
}
