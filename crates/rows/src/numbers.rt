// Cells: four times a cost, and a verdict's number. A word is two of them, that of a pair and that of the pair in the other order.
// Both are u32, the words of the lent room: a cell packed in a type of its own would be unpacked at each step of the search's inner loop.
ghost use Rattle.std.specs.Prelude.{◌≡◌, ◌<◌, ◌≤◌};
ghost use Rattle.rows.specs.Cells.{code_of, stopped, spent, unsure, behind_of, ends_of, low, high, both};

use patterns::Verdict;

// The number of a verdict.
pub fn code_of(v: Verdict) -> u32
    ensures { (result ≡ code_of v) × (result < 4) }
{
    match v {
        Verdict::Disjoint => 1,
        Verdict::Overlap => 2,
        Verdict::Unknown => 3,
    }
}

// A cost above the fuel stops.
#[tactic(auto, unfolding(crate::specs::Cells::stopped))]
fn stop(n: u32) -> u32
    ensures { (result ≡ stopped n) × (result ≤ 16391) }
{
    if n < 16388 { n } else { 16391 }
}

// One entry more.
fn spend(c: u32) -> u32
    requires { c ≤ 65536 }
    ensures { (result ≡ spent c) × (result ≤ 16391) }
{
    stop(c + 4)
}

// The tails' cell behind heads that are Unknown.
#[tactic(auto, unfolding(crate::specs::Cells::unsure))]
fn doubt(c: u32) -> u32
    requires { c < 65536 }
    ensures { (result ≡ unsure c) × (result ≤ 65536) }
{
    if c % 4 == 2 { c + 1 } else { c }
}

// Heads of a verdict, then the tails: one entry.
#[tactic(auto, unfolding(crate::specs::Cells::behind_of))]
fn behind(h: u32, c: u32) -> u32
    requires { c < 65536 }
    ensures { (result ≡ behind_of h c) × (result ≤ 16391) }
{
    match h % 4 {
        1 => 5,
        3 => spend(doubt(c)),
        _ => spend(c),
    }
}

// One end of a split, then the later ones.
#[tactic(auto, unfolding(crate::specs::Cells::ends_of))]
fn ends(s: u32, t: u32) -> u32
    requires { (s < 65536) × (t < 65536) }
    ensures { (result ≡ ends_of s t) × (result < 65536) }
{
    match (s % 4, t % 4) {
        (2, _) => s,
        (_, 1) => stop(s + t - 1),
        (v, _) => stop(s - v + t),
    }
}

pub fn low_of(w: u32) -> u32
    ensures { (result ≡ low w) × (result < 65536) }
{
    w % 65536
}

pub fn high_of(w: u32) -> u32
    ensures { (result ≡ high w) × (result < 65536) }
{
    w / 65536
}

pub fn word_of(c: u32, d: u32) -> u32
    requires { (c < 65536) × (d < 65536) }
    ensures { result ≡ both c d }
{
    c + 65536 * d
}

// The other order.
pub fn turn(w: u32) -> u32
    ensures { result ≡ both (high w) (low w) }
{
    word_of(high_of(w), low_of(w))
}

// Both begin with an `e.` variable: the splits below and to the right.
pub fn absorb_both(below: u32, right: u32) -> u32
    ensures { result ≡ both (spent (low below)) (spent (high right)) }
{
    word_of(spend(low_of(below)), spend(high_of(right)))
}

// One of them alone does: its splits, the same in both orders.
pub fn absorb_alone(splits: u32) -> u32
    requires { splits < 65536 }
    ensures { result ≡ both (spent splits) (spent splits) }
{
    let c = spend(splits);
    word_of(c, c)
}

// The tails behind two heads.
pub fn behind_both(h: u32, diagonal: u32) -> u32
    ensures { result ≡ both (behind_of (low h) (low diagonal)) (behind_of (high h) (high diagonal)) }
{
    let c = behind(low_of(h), low_of(diagonal));
    let d = behind(high_of(h), high_of(diagonal));
    word_of(c, d)
}

// The splits of both orders from the pair and the later ends, to the right and below.
pub fn ends_both(s: u32, right: u32, below: u32) -> u32
    ensures { result ≡ both (ends_of (low s) (low right)) (ends_of (high s) (high below)) }
{
    let c = ends(low_of(s), low_of(right));
    let d = ends(high_of(s), high_of(below));
    word_of(c, d)
}
