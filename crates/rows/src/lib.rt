// The overlap verdict of two patterns by rows: the cost and the verdict of every pair of their tails, from the ends backwards.
// That a body has at most 32,768 bytes is a clause of each function that is lent one.
#![tactic(auto)]

mod numbers;
mod table;
pub mod terms;

ghost use Rattle.std.specs.Prelude.{◌≡◌, ℕ, ◌+◌, ◌*◌, ◌<◌, ◌≤◌, length, get_or, IfSome};
ghost use Rattle.program.specs.Limits.{Mode};
ghost use Rattle.image.specs.Parts.{TermsAt};
ghost use Rattle.patterns.specs.Search.{sequence, size};
ghost use Rattle.rows.specs.Parts.{PatternIn};
ghost use Rattle.rows.specs.Cells.{CellTold};

use numbers::low_of;
use table::table_of;

// The cell of two tails of a body, unless the entries of the room from `from` on are too few: two for each term are enough.
pub fn pair_cell(b: &[u8], left: &[u8], right: &[u8], from: usize, room: &mut [u32]) -> Option<u32>
    requires { PatternIn b.now left.now × PatternIn b.now right.now × (length b.now ≤ 32768) }
    ensures tells { IfSome result (λ c. (x : TermsAt Mode.pattern left.now) (y : TermsAt Mode.pattern right.now) → CellTold (λ f. sequence f x.terms y.terms) c) }
    ensures keeps { (length room.new ≡ length room.old) × ((k : ℕ) → k < from → get_or room.new k 0 ≡ get_or room.old k 0) × ((x : TermsAt Mode.pattern left.now) (y : TermsAt Mode.pattern right.now) → from + 2 * (size x.terms + size y.terms) ≤ length room.old → result ≡ None → ⊥) }
{
    let p = b.len() - left.len();
    let q = b.len() - right.len();
    let word = table_of(b, p, q, from, room)?;
    Some(low_of(word))
}
