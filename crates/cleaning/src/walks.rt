// Walks along a function's list of sites: which of them are there, and which a sentence meets.
// A list of sites goes from entry to entry of the lent memory: no range knows which.
ghost use Rattle.std.specs.Prelude.{◌≡◌, Bool, true, List, ℕ, ◌+◌, ◌*◌, ◌%◌, ◌<◌, ◌≤◌, length, get_or, drop};
ghost use Rattle.std.proofs.Math.Option.{some};
ghost use Rattle.std.proofs.Math.ListN.{get_elem?};
ghost use Rattle.program.specs.Syntax.{Name, Function, Program};
ghost use Rattle.program.specs.Limits.{Mode};
ghost use Rattle.image.specs.Parts.{TermsAt};
ghost use Rattle.program.specs.Sentences.{Sentence};
ghost use Rattle.told.specs.Numbered.{Held, sites_of};
ghost use Rattle.restrictions.specs.Entries.{entry_sentence};
ghost use Rattle.index.specs.Layout.{heads, witnesses, marks, calls, room, Reaches};
ghost use Rattle.index.specs.First.{First, FirstFrom};
ghost use Rattle.told.specs.Calls.{is_listed};
ghost use Rattle.index.specs.Links.{list_head};
ghost use Rattle.told.specs.Asked.{meets, is_judged};
ghost use Rattle.told.specs.History.{is_there};
ghost use Rattle.cleaning.specs.Indexed.{Indexed, SomeBody, fell_of, FellIn};
ghost use Rattle.cleaning.specs.Room.{Used};
ghost use Rattle.cleaning.specs.Walks.{Walkable, SomeWalk, is_there_listed, OnList, NoneMet, MetAt, SomeAsked, SomeMeeting, Owns, WitnessOf, SomeOwned, witness_from, StillMet, OneColumn};

use crate::verdict::verdict_at;
use index::Plan;
use index::table::{Kind, class_of, head_site, next_site, sentence_of};
use patterns::Verdict;
use restrictions::Located;

// The round in which the sentence s fell, if it did.
pub fn fell(work: &[u32], plan: Plan, s: usize) -> Option<usize>
    requires { (s < plan.sentences) × Reaches (marks plan) work.now }
    ensures { FellIn (fell_of plan work.now s) result }
{
    let k = plan.lines() + s;
    match Located::from(work[k]).number {
        0 => None,
        round => Some(round),
    }
}

// Whether the sentence s is there when the round begins.
pub fn is_there(work: &[u32], plan: Plan, s: usize, round: usize) -> bool
    requires { (s < plan.sentences) × Reaches (marks plan) work.now }
    ensures { result ≡ is_there (fell_of plan work.now) round s }
{
    match fell(work, plan, s) {
        None => true,
        Some(k) => round <= k,
    }
}

// Whether the site i is there when the round begins: as long as its sentence is.
pub fn site_there(work: &[u32], plan: Plan, i: usize, round: usize) -> bool
    requires { (i < plan.sites) × (entry_sentence (get_or work.now (calls plan + i) 0) < plan.sentences) × Reaches (room plan) work.now }
    ensures { result ≡ is_there (fell_of plan work.now) round (entry_sentence (get_or work.now (calls plan + i) 0)) }
{
    let s = sentence_of(work, plan.calls(), i);
    is_there(work, plan, s, round)
}

// From the place i on, the first site of its list that is there.
pub fn first_there(work: &[u32], plan: Plan, i: usize, round: usize) -> Option<usize>
    requires { SomeWalk work.now plan i }
    ensures { (kind : Bool) (f : Name) (sites : List Held) (q : ℕ) → Walkable kind f sites work.now plan → First (is_listed kind f) q sites i → FirstFrom (is_there_listed (is_there (fell_of plan work.now) round) kind f) q sites result }
{
    let links = plan.links();
    let mut j = i;
    while j < plan.sites {
        if site_there(work, plan, j, round) {
            return Some(j);
        }
        j = next_site(work, links, j);
    }
    None
}

// Whether a round judges the f-th function: it is characterised and has a restriction.
pub fn is_judged(work: &[u32], plan: Plan, f: usize, round: usize) -> bool
    requires { SomeBody work.now plan × (f < plan.functions) }
    ensures { (b : List ℕ) (w : Program) (x : Function) → Indexed b w work.now plan → get_elem? w.functions f ≡ some x → result ≡ is_judged (is_there (fell_of plan work.now) round) x.name (sites_of w) }
{
    let other = head_site(work, plan.functions, f, Kind::Other);
    let open = first_there(work, plan, other, round);
    if open.is_some() {
        return false;
    }
    let first = head_site(work, plan.functions, f, Kind::Plain);
    let plain = first_there(work, plan, first, round);
    plain.is_some()
}

// Whether the site i meets the pattern that stands at `pattern` of the body b: it is there and the two are not Disjoint. A
// repeat of an earlier site that is there need not be asked, as the verdict is the same.
fn is_met(b: &[u8], work: &mut [u32], plan: Plan, pattern: usize, i: usize, round: usize) -> bool
    requires { SomeAsked b.now work.old plan pattern i × (length b.now ≤ 32768) }
    ensures met { (w : Program) (f : ℕ) (x : Function) (y : Held) → Indexed b.now w work.old plan → get_elem? w.functions f ≡ some x → get_elem? (sites_of w) i ≡ some y → is_listed true x.name y ≡ true → (t : TermsAt Mode.pattern (drop pattern b.now)) → MetAt (is_there (fell_of plan work.old) round) x.name t.terms (sites_of w) i y result }
    ensures keeps { Used plan work.old work.new }
{
    if !site_there(work, plan, i, round) {
        return false;
    }
    let c = class_of(work, plan.links(), i);
    if c < i {
        if site_there(work, plan, c, round) {
            return false;
        }
    }
    verdict_at(b, work, plan, pattern, i) != Verdict::Disjoint
}

// From the place i on, the first site of its list that meets the pattern.
fn meeting_from(
    b: &[u8],
    work: &mut [u32],
    plan: Plan,
    pattern: usize,
    i: usize,
    round: usize,
) -> Option<usize>
    requires { SomeMeeting b.now work.old plan pattern i × (length b.now ≤ 32768) }
    ensures met { (w : Program) (f : ℕ) (x : Function) → Indexed b.now w work.old plan → get_elem? w.functions f ≡ some x → OnList x.name (sites_of w) i → (t : TermsAt Mode.pattern (drop pattern b.now)) → NoneMet (is_there (fell_of plan work.old) round) x.name t.terms (sites_of w) i → FirstFrom (meets (is_there (fell_of plan work.old) round) x.name t.terms) 0 (sites_of w) result }
    ensures keeps { Used plan work.old work.new }
{
    let links = plan.links();
    let mut j = i;
    while j < plan.sites {
        if is_met(b, work, plan, pattern, j, round) {
            return Some(j);
        }
        j = next_site(work, links, j);
    }
    None
}

// Where the search for a site that meets the sentence s of the f-th function begins: at its witness, or at the list's head.
pub fn witness_of(work: &[u32], plan: Plan, f: usize, s: usize) -> usize
    requires { (f < plan.functions) × (s < plan.sentences) × Reaches (room plan) work.now }
    ensures { result ≡ witness_from (get_or work.now (witnesses plan + s) 0) (list_head true (get_or work.now (heads plan + f) 0)) }
{
    let k = plan.witnesses() + s;
    match (work[k] as usize).checked_sub(1) {
        Some(i) => i,
        None => head_site(work, plan.functions, f, Kind::Plain),
    }
}

// Whether the sentence s of the f-th function meets a site when the round begins. Its witness only moves on, as sites
// only go: so no verdict is asked twice.
pub fn still_met(b: &[u8], work: &mut [u32], plan: Plan, f: usize, s: usize, round: usize) -> bool
    requires { SomeOwned b.now work.old plan (is_there (fell_of plan work.old) round) f s × (length b.now ≤ 32768) }
    ensures met { (w : Program) (x : Function) (y : Sentence) → Indexed b.now w work.old plan → Owns w f x s y → WitnessOf (is_there (fell_of plan work.old) round) x.name y.pattern (sites_of w) (get_or work.old (witnesses plan + s) 0) → StillMet (is_there (fell_of plan work.old) round) x.name y.pattern (sites_of w) (get_or work.new (witnesses plan + s) 0) result }
    ensures others { OneColumn plan work.old work.new (witnesses plan + s) }
{
    let k = plan.witnesses() + s;
    let i = witness_of(work, plan, f, s);
    if plan.sites <= i {
        work[k] = plan.sites as u32 + 1;
        return false;
    }
    if work[k] != 0 {
        if site_there(work, plan, i, round) {
            return true;
        }
    }
    let pattern = plan.pattern_place(work, s);
    match meeting_from(b, work, plan, pattern, i, round) {
        Some(next) => {
            work[k] = next as u32 + 1;
            true
        }
        None => {
            work[k] = plan.sites as u32 + 1;
            false
        }
    }
}
