// The way to the first success of a search: one level of brackets with a stack of open splits in the room, three entries each,
// what follows the `e.` variable, the end in turn and its fuel. It looks for a success and nothing else: where a bracket pair is
// Unknown, fuel runs out or the room is too short it finds no way. It makes the search's entries, 4,096 at most, and asks one
// bracket pair at each at most.
// Marks stay numbers, as in `image::part`.
ghost use Rattle.std.specs.Prelude.{◌≡◌, [], ℕ, ◌+◌, ◌*◌, ◌<◌, ◌≤◌, length, get_or, drop};
ghost use Rattle.program.specs.Limits.{Mode};
ghost use Rattle.image.specs.Parts.{TermsAt};
ghost use Rattle.patterns.specs.Search.{overlap_of_terms, sequence};
ghost use Rattle.rows.specs.Parts.{HeadAt};
ghost use Rattle.rows.specs.Rows.{Kept};
ghost use Rattle.overlap.specs.Way.{Way, Trail, Trailing, Failing, Fallen, Told, Goes, GoesWith, Turned, height_of, in_turn, lead_of, split_at, Opened};

use crate::{OVERLAP_FUEL, overlap_behind};
use image::part::term_len;
use patterns::Verdict;
use rows::terms::{flat_verdict, leftover_overlap};

// A split behind some heads: what follows its `e.` variable, what that takes from, and the fuel left.
#[derive(Clone, Copy, Debug, PartialEq, Eq)]
pub struct Opening {
    pub rest: usize,
    pub other: usize,
    pub fuel: u32,
}

// Where the heads of two patterns lead.
#[derive(Clone, Copy, Debug, PartialEq, Eq)]
pub enum Lead {
    Stuck,
    Met,
    Apart(u32),
    Split(Opening),
}

// Two patterns in turn with their fuel, and how many splits are open.
#[derive(Clone, Copy, Debug, PartialEq, Eq)]
pub struct Pair {
    pub left: usize,
    pub right: usize,
    pub fuel: u32,
    pub height: usize,
}

// Where a turn leads: the search goes on, or it has ended with so many splits on its way.
#[derive(Clone, Copy, Debug, PartialEq, Eq)]
pub enum Turn {
    On(Pair),
    Ended(usize),
}

// The verdict on the heads at two places. A bracket pair is asked in the room behind the stack.
fn heads_verdict(b: &[u8], i: usize, j: usize, from: usize, room: &mut [u32]) -> Verdict
    requires { HeadAt (drop i b.now) × HeadAt (drop j b.now) × (length b.now ≤ 32768) }
    ensures answers { (x : HeadAt (drop i b.now)) (y : HeadAt (drop j b.now)) → result ≡ overlap_of_terms sequence x.head y.head }
    ensures keeps { Kept from room.old room.new }
{
    if b[i] == 7 && b[j] == 7 {
        return overlap_behind(b, i + 9, j + 9, OVERLAP_FUEL, from, room).verdict;
    }
    flat_verdict(&b[i..], &b[j..])
}

// Where an answer leads.
fn lead_of(v: Verdict, fuel: u32) -> Lead
    ensures { result ≡ lead_of v fuel }
{
    match v {
        Verdict::Disjoint => Lead::Apart(fuel),
        Verdict::Overlap => Lead::Met,
        Verdict::Unknown => Lead::Stuck,
    }
}

// The heads of two patterns in turn, until one is at its close or at an `e.` variable.
fn walk_heads(b: &[u8], left: usize, right: usize, fuel: u32, from: usize, room: &mut [u32]) -> Lead
    requires { TermsAt Mode.pattern (drop left b.now) × TermsAt Mode.pattern (drop right b.now) × (length b.now ≤ 32768) }
    ensures tells { Told b.now fuel left right result }
    ensures keeps { Kept from room.old room.new }
{
    let mut i = left;
    let mut j = right;
    for f in (0..fuel).rev() {
        let x = &b[i..];
        let y = &b[j..];
        let m = x[0];
        let n = y[0];
        if m == 15 {
            return lead_of(leftover_overlap(y), f);
        }
        if n == 15 {
            return lead_of(leftover_overlap(x), f);
        }
        let k = i + term_len(x);
        let l = j + term_len(y);
        if m == 6 {
            return Lead::Split(Opening {
                rest: k,
                other: j,
                fuel: f,
            });
        }
        if n == 6 {
            return Lead::Split(Opening {
                rest: l,
                other: i,
                fuel: f,
            });
        }
        let v = heads_verdict(b, i, j, from, room);
        if v != Verdict::Overlap {
            return lead_of(v, f);
        }
        i = k;
        j = l;
    }
    Lead::Stuck
}

// The split that stands at the entry `at`.
pub fn split_in(room: &[u32], at: usize) -> Opening
    requires { at + 3 ≤ length room.now }
    ensures { (result.rest ≡ get_or room.now at 0) × (result.other ≡ get_or room.now (at + 1) 0) × (result.fuel ≡ get_or room.now (at + 2) 0) }
{
    Opening {
        rest: room[at] as usize,
        other: room[at + 1] as usize,
        fuel: room[at + 2],
    }
}

// A split at the entry `at`.
fn put_split(room: &mut [u32], at: usize, split: Opening)
    requires { (split.rest ≤ 32768) × (split.other ≤ 32768) × (at + 3 ≤ length room.old) }
    ensures { room.new ≡ split_at room.old at split.rest split.other split.fuel }
{
    room[at] = split.rest as u32;
    room[at + 1] = split.other as u32;
    room[at + 2] = split.fuel;
}

// One split more, if there is room for it.
fn open_split(split: Opening, from: usize, height: usize, room: &mut [u32]) -> Turn
    requires { (split.rest ≤ 32768) × (split.other ≤ 32768) × (from + 3 * height ≤ length room.old) }
    ensures { Opened room.old from height split.rest split.other split.fuel result room.new }
{
    let at = from + 3 * height;
    if room.len() < at + 3 {
        return Turn::Ended(0);
    }
    put_split(room, at, split);
    Turn::On(Pair {
        left: split.rest,
        right: split.other,
        fuel: split.fuel,
        height: height + 1,
    })
}

// The patterns in turn were Disjoint: the last split that has an end left goes on with that.
fn next_end(b: &[u8], fuel: u32, from: usize, height: usize, room: &mut [u32]) -> Turn
    requires { Fallen b.now room.old from height fuel × (length b.now ≤ 32768) × (from + 3 * height ≤ length room.old) }
    ensures turns { (f p q : ℕ) → Failing b.now room.old from f p q height fuel → Turned b.now room.new from f p q result }
    ensures goes { GoesWith b.now fuel result × (height_of result ≤ height) }
    ensures keeps { Kept from room.old room.new }
{
    for k in (0..height).rev() {
        let at = from + 3 * k;
        let split = split_in(room, at);
        let x = &b[split.other..];
        if x[0] != 15 {
            let next = split.other + term_len(x);
            let later = Opening {
                other: next,
                fuel,
                ..split
            };
            put_split(room, at, later);
            return Turn::On(Pair {
                left: split.rest,
                right: next,
                fuel,
                height: k + 1,
            });
        }
    }
    Turn::Ended(0)
}

// The patterns in turn, up to the next split, success or failure.
fn take_turn(b: &[u8], pair: Pair, from: usize, room: &mut [u32]) -> Turn
    requires { TermsAt Mode.pattern (drop pair.left b.now) × TermsAt Mode.pattern (drop pair.right b.now) × (length b.now ≤ 32768) × (from + 3 * pair.height ≤ length room.old) × Trailing b.now room.old from pair.height pair.fuel pair.left pair.right }
    ensures turns { (f p q : ℕ) → Trail b.now room.old from f p q pair.height pair.fuel pair.left pair.right → Turned b.now room.new from f p q result }
    ensures goes { Goes b.now pair.fuel result × (from + 3 * height_of result ≤ length room.old) }
    ensures keeps { Kept from room.old room.new }
{
    let behind = from + 3 * pair.height;
    match walk_heads(b, pair.left, pair.right, pair.fuel, behind, room) {
        Lead::Stuck => Turn::Ended(0),
        Lead::Met => Turn::Ended(pair.height),
        Lead::Apart(fuel) => next_end(b, fuel, from, pair.height, room),
        Lead::Split(split) => open_split(split, from, pair.height, room),
    }
}

// How many splits are on the way to the first success on two patterns; their ends stand in the room from `from` on. It is 0 where no
// way is found: a way of no splits is known nothing of, and each caller goes on as if it knew no end.
pub fn find_way(
    b: &[u8],
    left: usize,
    right: usize,
    fuel: u32,
    from: usize,
    room: &mut [u32],
) -> usize
    requires { TermsAt Mode.pattern (drop left b.now) × TermsAt Mode.pattern (drop right b.now) × (length b.now ≤ 32768) × (from ≤ length room.old) }
    ensures finds { Way b.now (in_turn room.new from result []) fuel left right × (from + 3 * result ≤ length room.old) }
    ensures keeps { Kept from room.old room.new }
{
    let mut pair = Pair {
        left,
        right,
        fuel,
        height: 0,
    };
    loop {
        match take_turn(b, pair, from, room) {
            Turn::On(next) => pair = next,
            Turn::Ended(height) => return height,
        }
    }
}
