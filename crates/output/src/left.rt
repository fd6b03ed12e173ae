// The kept marks of the sentences that never fell.
ghost use Rattle.std.specs.Prelude.{◌≡◌, ◌&&◌, ℕ, ◌-◌, ◌<◌, ◌≤◌, eqb, ltb, length, take, drop};
ghost use Rattle.index.specs.Layout.{marks, calls, room, Reaches};
ghost use Rattle.index.specs.Tables.{Apart};
ghost use Rattle.told.specs.Kept.{is_kept};
ghost use Rattle.cleaning.specs.Indexed.{fell_of};

use crate::mark::{clear_mark, keep_all};
use cleaning::walks::fell;
use index::Plan;

// Clears the mark of the sentence s if it fell.
fn mark_sentence(work: &mut [u32], plan: Plan, from: usize, end: usize, s: usize)
    requires { (from ≡ marks plan) × (end ≡ calls plan) × (s < plan.sentences) × Reaches (room plan) work.old }
    ensures here { is_kept (take (calls plan - marks plan) (drop (marks plan) work.new)) s ≡ (is_kept (take (calls plan - marks plan) (drop (marks plan) work.old)) s && eqb (fell_of plan work.old s) 0) }
    ensures there { (j : ℕ) → (j ≡ s → ⊥) → is_kept (take (calls plan - marks plan) (drop (marks plan) work.new)) j ≡ is_kept (take (calls plan - marks plan) (drop (marks plan) work.old)) j }
    ensures others { Apart work.old work.new (marks plan) (calls plan) }
{
    if fell(work, plan, s).is_some() {
        clear_mark(&mut work[from..end], s);
    }
}

// Marks the sentences that never fell as kept.
pub fn mark_left(work: &mut [u32], plan: Plan)
    requires { Reaches (room plan) work.old }
    ensures marked { (s : ℕ) → is_kept (take (calls plan - marks plan) (drop (marks plan) work.new)) s ≡ (ltb s plan.sentences && eqb (fell_of plan work.old s) 0) }
    ensures others { Apart work.old work.new (marks plan) (calls plan) }
{
    let from = plan.marks();
    let end = plan.calls();
    keep_all(&mut work[from..end], plan.sentences);
    for s in 0..plan.sentences {
        mark_sentence(work, plan, from, end, s);
    }
}
