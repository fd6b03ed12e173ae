// The rounds, in the entries of work.
ghost use Rattle.std.specs.Prelude.{◌≡◌, Bool, ◌||◌, List, ℕ, suc, ◌+◌, ◌<◌, ◌≤◌, length, get_or};
ghost use Rattle.std.proofs.Math.Option.{some};
ghost use Rattle.std.proofs.Math.ListN.{get_elem?};
ghost use Rattle.program.specs.Syntax.{Function, Program};
ghost use Rattle.program.specs.Sentences.{Sentence};
ghost use Rattle.index.specs.Layout.{witnesses, marks, Reaches};
ghost use Rattle.told.specs.Numbered.{sentences_before, sites_of};
ghost use Rattle.told.specs.History.{is_there};
ghost use Rattle.cleaning.specs.Indexed.{Indexed, SomeBody, fell_of};
ghost use Rattle.cleaning.specs.Walks.{Owns, OneColumn, ColumnsApart, WitnessOf, Witnessed, SomeOwned};
ghost use Rattle.cleaning.specs.RoundDone.{JudgedUpto, SentenceJudged, SentenceDropped, SentencesDropped, SomeFunction, RoundReady, SomeRoundReady, RoundAt, SomeRoundAt, RoundMade, RoundsReady, SomeRoundsReady, RoundsMade};

use crate::walks::{fell, is_judged, is_there, still_met};
use index::Plan;
use index::table::place_of;
use restrictions::Located;

// The number of the f-th function's first sentence; the count of all sentences, past the last function.
pub fn first_sentence(work: &[u32], plan: Plan, f: usize) -> usize
    requires { SomeBody work.now plan × (f ≤ plan.functions) }
    ensures { (b : List ℕ) (w : Program) → Indexed b w work.now plan → result ≡ sentences_before f w.functions }
{
    if f < plan.functions {
        return Located::from(work[f]).number;
    }
    plan.sentences
}

// Judges the sentence s of the f-th function, if it is there; whether it is met.
fn judge_sentence(b: &[u8], work: &mut [u32], plan: Plan, f: usize, s: usize, round: usize) -> bool
    requires { SomeOwned b.now work.old plan (is_there (fell_of plan work.old) round) f s × (length b.now ≤ 32768) }
    ensures judged { (w : Program) (x : Function) (y : Sentence) → Indexed b.now w work.old plan → Owns w f x s y → WitnessOf (is_there (fell_of plan work.old) round) x.name y.pattern (sites_of w) (get_or work.old (witnesses plan + s) 0) → SentenceJudged w (is_there (fell_of plan work.old) round) work.new plan x s y result }
    ensures others { OneColumn plan work.old work.new (witnesses plan + s) }
{
    if !is_there(work, plan, s, round) {
        return false;
    }
    still_met(b, work, plan, f, s, round)
}

// Judges the sentences of the f-th function, from `first` up to `end`; whether one is met.
fn judge(
    b: &[u8],
    work: &mut [u32],
    plan: Plan,
    f: usize,
    first: usize,
    end: usize,
    round: usize,
) -> bool
    requires { SomeFunction b.now work.old plan f first end round × (length b.now ≤ 32768) }
    ensures judged { (w : Program) (x : Function) → Indexed b.now w work.old plan → get_elem? w.functions f ≡ some x → Witnessed (is_there (fell_of plan work.old) round) w work.old plan → first ≡ sentences_before f w.functions → end ≡ sentences_before (suc f) w.functions → Witnessed (is_there (fell_of plan work.old) round) w work.new plan × JudgedUpto w (is_there (fell_of plan work.old) round) work.new plan f x end result }
    ensures others { ColumnsApart plan work.old work.new (witnesses plan + first) (witnesses plan + end) }
{
    let mut met = false;
    for s in first..end {
        met |= judge_sentence(b, work, plan, f, s, round);
    }
    met
}

// The sentence s falls in the round if it has not fallen and no site is left for it; whether it has.
fn drop_sentence(work: &mut [u32], plan: Plan, s: usize, round: usize) -> bool
    requires { (s < plan.sentences) × (plan.sites ≤ 8192) × (round < 4096) × Reaches (marks plan) work.old }
    ensures { SentenceDropped work.old work.new plan s round result }
{
    let k = plan.lines() + s;
    let d = plan.witnesses() + s;
    if fell(work, plan, s).is_none() && work[d] as usize == plan.sites + 1 {
        let place = place_of(work, k);
        work[k] = Located {
            place,
            number: round,
        }
        .packed();
        return true;
    }
    false
}

// The same of the sentences from `first` up to `end`; whether one has.
fn drop_rejected(work: &mut [u32], plan: Plan, first: usize, end: usize, round: usize) -> bool
    requires { (first ≤ end) × (end ≤ plan.sentences) × (plan.sites ≤ 8192) × (round < 4096) × Reaches (marks plan) work.old }
    ensures { SentencesDropped work.old work.new plan first end round result }
{
    let mut dropped = false;
    for s in first..end {
        dropped |= drop_sentence(work, plan, s, round);
    }
    dropped
}

// The round's part on the f-th function; whether anything fell. A function whose sentences are all rejected
// keeps all of them.
fn clean_function(
    b: &[u8],
    work: &mut [u32],
    plan: Plan,
    root: usize,
    f: usize,
    round: usize,
) -> bool
    requires { SomeRoundAt b.now work.old plan root round f × (f < plan.functions) × (length b.now ≤ 32768) }
    ensures { (w : Program) (old : List ℕ) (changed : Bool) → RoundReady b.now w old plan root round → RoundAt b.now w old work.old plan round f changed → RoundAt b.now w old work.new plan round (suc f) (changed || result) }
{
    if f == root {
        return false;
    }
    if !is_judged(work, plan, f, round) {
        return false;
    }
    let first = first_sentence(work, plan, f);
    let end = first_sentence(work, plan, f + 1);
    if !judge(b, work, plan, f, first, end, round) {
        return false;
    }
    drop_rejected(work, plan, first, end, round)
}

// One round over the functions; whether anything fell.
fn clean_once(b: &[u8], work: &mut [u32], plan: Plan, root: usize, round: usize) -> bool
    requires { SomeRoundReady b.now work.old plan root round × (length b.now ≤ 32768) }
    ensures { (w : Program) → RoundReady b.now w work.old plan root round → RoundMade b.now w work.old work.new plan round result }
{
    let mut changed = false;
    for f in 0..plan.functions {
        changed |= clean_function(b, work, plan, root, f, round);
    }
    changed
}

// All rounds; how many. They end with the first that drops nothing, which is counted: no range knows how many there are.
pub fn clean_rounds(b: &[u8], work: &mut [u32], plan: Plan, root: usize) -> usize
    requires { SomeRoundsReady b.now work.old plan root × (length b.now ≤ 32768) }
    ensures { (w : Program) → RoundsReady b.now w work.old plan root → RoundsMade w work.old work.new plan result }
{
    let mut round = 1;
    while clean_once(b, work, plan, root, round) {
        round += 1;
    }
    round
}
