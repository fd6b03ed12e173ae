// The table of two patterns. One row of it is kept, two words for each tail of the second; a turn makes of the row of a tail of
// the first that of the tail one term longer. Two brackets are a table of their own, behind the row.
// The room goes on whole, with the place from which it is free: the lists that a table reads stand below the row that it writes, and
// parts lent on would be split in two at each level of brackets.
// Marks stay numbers, as in `image::part`.
ghost use Rattle.std.specs.Prelude.{◌≡◌, ◌+◌, ◌*◌, ◌<◌, ◌≤◌, length, get_or, set, IfSome};
ghost use Rattle.program.specs.Syntax.{Terms};
ghost use Rattle.patterns.specs.Search.{View, view, size};
ghost use Rattle.rows.specs.Cells.{PairTold};
ghost use Rattle.rows.specs.Rows.{read_at, listed_at, PatternFrom, Kept, Row, Lies, Beside, Above, Lists, RoomFor, RowRoom, TableRoom};

use crate::numbers::{absorb_alone, absorb_both, behind_both, ends_both, high_of, low_of, turn};
use crate::terms::{Places, close_behind, flat_heads, leftover, list_second, list_terms};

// Both orders of nothing and nothing: one entry, Overlap.
const CORNER: u32 = 393222;

// Both orders of no later ends: no entry, Disjoint.
const NO_ENDS: u32 = 65537;

fn put_words(room: &mut [u32], at: usize, s: u32, t: u32)
    requires { at + 1 < length room.old }
    ensures { room.new ≡ set (set room.old at s) (at + 1) t }
{
    let next = at + 1;
    room[at] = s;
    room[next] = t;
}

// The row of nothing.
fn close_row(b: &[u8], ys: Places, row: usize, room: &mut [u32])
    requires { Lies b.now room.old ys.at ys.count row (listed_at b.now room.old ys.at) }
    ensures tells { (x : Terms) → view x ≡ View.nothing → Row room.new row 0 ys.count x (listed_at b.now room.old ys.at) }
    ensures keeps { Kept row room.old room.new }
{
    let mut s: u32 = CORNER;
    let mut t: u32 = CORNER;
    for j in (0..ys.count).rev() {
        let q = room[ys.at + j] as usize;
        s = close_behind(b[q], s);
        t = ends_both(s, t, NO_ENDS);
        put_words(room, row + 2 * j, s, t);
    }
}

// The pair at p and q, from the words beside it, unless there is no room for what two brackets hold.
#[cycle(fill_row_fill_table_pair_at_table_of)]
fn pair_at(
    b: &[u8],
    p: usize,
    q: usize,
    diagonal: u32,
    below: u32,
    right: u32,
    top: usize,
    room: &mut [u32],
) -> Option<u32>
    requires { Beside b.now p q diagonal below right }
    ensures tells { IfSome result (PairTold (read_at b.now p) (read_at b.now q)) }
    ensures keeps { Kept top room.old room.new }
    ensures suffices { RoomFor b.now (length room.old) top p q → result ≡ None → ⊥ }
{
    let m = b[p];
    let k = b[q];
    if m == 6 {
        if k == 6 {
            return Some(absorb_both(below, right));
        }
        return Some(absorb_alone(low_of(below)));
    }
    if k == 6 {
        return Some(absorb_alone(high_of(right)));
    }
    if m != 7 || k != 7 {
        return Some(behind_both(flat_heads(b, p, q), diagonal));
    }
    let inner = table_of(b, p + 9, q + 9, top, room)?;
    Some(behind_both(inner, diagonal))
}

// The row of the tail at p, over that of the tail behind its first term; `beneath` and `side` are the cells at the close.
#[cycle(fill_row_fill_table_pair_at_table_of)]
fn fill_row(
    b: &[u8],
    p: usize,
    ys: Places,
    row: usize,
    beneath: u32,
    side: u32,
    room: &mut [u32],
) -> Option<()>
    requires { Above b.now room.old p ys.at ys.count row beneath side (listed_at b.now room.old ys.at) }
    ensures tells { IfSome result (λ _. Row room.new row 0 ys.count (read_at b.now p) (listed_at b.now room.old ys.at)) }
    ensures keeps { Kept row room.old room.new }
    ensures suffices { RowRoom b.now room.old p ys.at ys.count row → result ≡ None → ⊥ }
{
    let top = row + 2 * ys.count;
    let mut diagonal = beneath;
    let mut right = side;
    for j in (0..ys.count).rev() {
        let q = room[ys.at + j] as usize;
        let at = row + 2 * j;
        let under = room[at];
        let below = room[at + 1];
        let s = pair_at(b, p, q, diagonal, below, right, top, room)?;
        right = ends_both(s, right, below);
        put_words(room, at, s, right);
        diagonal = under;
    }
    Some(())
}

// The pair of two lists of terms.
#[cycle(fill_row_fill_table_pair_at_table_of)]
fn fill_table(b: &[u8], xs: Places, ys: Places, row: usize, room: &mut [u32]) -> Option<u32>
    requires { Lists b.now room.old xs.at xs.count ys.at ys.count row }
    ensures tells { IfSome result (PairTold (listed_at b.now room.old xs.at) (listed_at b.now room.old ys.at)) }
    ensures keeps { Kept row room.old room.new }
    ensures suffices { TableRoom b.now room.old xs.at xs.count ys.at ys.count row → result ≡ None → ⊥ }
{
    if room.len() < row + 2 * ys.count {
        return None;
    }
    close_row(b, ys, row, room);
    let mut beneath: u32 = CORNER;
    let mut side: u32 = CORNER;
    for i in (0..xs.count).rev() {
        let p = room[xs.at + i] as usize;
        let s = close_behind(b[p], beneath);
        side = ends_both(s, NO_ENDS, side);
        fill_row(b, p, ys, row, beneath, side, room)?;
        beneath = s;
    }
    Some(room[row])
}

// The pair of the patterns at p and q, in both orders, unless the room from `from` on is too short. The shorter list has the row.
#[cycle(fill_row_fill_table_pair_at_table_of)]
pub fn table_of(b: &[u8], p: usize, q: usize, from: usize, room: &mut [u32]) -> Option<u32>
    requires { PatternFrom b.now p × PatternFrom b.now q × (length b.now ≤ 32768) }
    ensures tells { IfSome result (PairTold (read_at b.now p) (read_at b.now q)) }
    ensures keeps { Kept from room.old room.new }
    ensures suffices { from + 2 * (size (read_at b.now p) + size (read_at b.now q)) ≤ length room.old → result ≡ None → ⊥ }
{
    if b[p] == 15 {
        return Some(leftover(b, q));
    }
    if b[q] == 15 {
        return Some(leftover(b, p));
    }
    let first = list_terms(b, p, from, room)?;
    let second = list_second(b, p, q, first, room)?;
    let row = second.at + second.count;
    if second.count <= first.count {
        return fill_table(b, first, second, row, room);
    }
    let turned = fill_table(b, second, first, row, room)?;
    Some(turn(turned))
}
