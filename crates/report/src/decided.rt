// Which sentences are undecided: asked once, and noted above the round in a sentence's entry.
// A list of sites goes from entry to entry of the lent memory: no range knows which.
ghost use Rattle.std.specs.Prelude.{◌≡◌, true, ℕ, suc, ◌<◌, ◌≤◌, length, drop};
ghost use Rattle.std.proofs.Math.Option.{some};
ghost use Rattle.std.proofs.Math.ListN.{get_elem?};
ghost use Rattle.program.specs.Syntax.{Function, Program};
ghost use Rattle.program.specs.Limits.{Mode};
ghost use Rattle.image.specs.Parts.{TermsAt};
ghost use Rattle.program.specs.Sentences.{Sentence};
ghost use Rattle.meaning.specs.Lists.{any};
ghost use Rattle.told.specs.Numbered.{Held, sentences_before, sites_of};
ghost use Rattle.told.specs.Calls.{is_listed};
ghost use Rattle.told.specs.History.{is_there, after_all};
ghost use Rattle.told.specs.ToldReport.{overlaps};
ghost use Rattle.index.specs.Layout.{marks, Reaches};
ghost use Rattle.cleaning.specs.Indexed.{Indexed, fell_of};
ghost use Rattle.cleaning.specs.Room.{Used};
ghost use Rattle.cleaning.specs.Walks.{SomeAsked, Owns};
ghost use Rattle.report.specs.Emitting.{Readable, SomeReadable, SomeSentence};
ghost use Rattle.report.specs.Notes.{is_open, open_at, OpenSet, OpenUpto, FunctionOpen, DecidedUpto};

use crate::AFTER_ALL;
use crate::entries::Entries;
use cleaning::verdict::verdict_at;
use cleaning::walks::{is_judged, is_there, site_there, witness_of};
use index::Plan;
use index::table::next_site;
use patterns::Verdict;

// The bit of an undecided sentence, above the round in its entry.
const UNDECIDED: u32 = 134217728;

// Whether the site i is there when the round begins, and the pattern that stands at `pattern` of the body b has an Overlap with it.
fn overlaps_at(
    b: &[u8],
    work: &mut [u32],
    plan: Plan,
    pattern: usize,
    i: usize,
    round: usize,
) -> bool
    requires { SomeAsked b.now work.old plan pattern i × (length b.now ≤ 32768) }
    ensures answers { (w : Program) (f : ℕ) (x : Function) (y : Held) → Indexed b.now w work.old plan → get_elem? w.functions f ≡ some x → get_elem? (sites_of w) i ≡ some y → is_listed true x.name y ≡ true → (t : TermsAt Mode.pattern (drop pattern b.now)) → result ≡ overlaps (is_there (fell_of plan work.old) round) x.name t.terms y }
    ensures keeps { Used plan work.old work.new }
{
    site_there(work, plan, i, round) && verdict_at(b, work, plan, pattern, i) == Verdict::Overlap
}

// Whether a restriction of the f-th function gives its sentence s Overlap in the end. The sites before its witness give Disjoint.
fn is_decided(b: &[u8], work: &mut [u32], plan: Plan, f: usize, s: usize) -> bool
    requires { SomeSentence b.now work.old plan f s }
    ensures answers { (w : Program) (x : Function) (y : Sentence) → Readable b.now w work.old plan → Owns w f x s y → result ≡ any (overlaps (is_there (fell_of plan work.old) after_all) x.name y.pattern) (sites_of w) }
    ensures keeps { Used plan work.old work.new }
{
    let pattern = plan.pattern_place(work, s);
    let links = plan.links();
    let mut i = witness_of(work, plan, f, s);
    while i < plan.sites {
        if overlaps_at(b, work, plan, pattern, i, AFTER_ALL) {
            return true;
        }
        i = next_site(work, links, i);
    }
    false
}

// Whether the sentence s of the f-th function is left and undecided.
fn stays_open(b: &[u8], work: &mut [u32], plan: Plan, f: usize, s: usize) -> bool
    requires { SomeSentence b.now work.old plan f s }
    ensures answers { (w : Program) (x : Function) (y : Sentence) → Readable b.now w work.old plan → Owns w f x s y → result ≡ open_at (is_there (fell_of plan work.old) after_all) (sites_of w) x s y }
    ensures keeps { Used plan work.old work.new }
{
    is_there(work, plan, s, AFTER_ALL) && !is_decided(b, work, plan, f, s)
}

// Notes it of the sentence s: a flag, since what is noted is one bit.
fn set_open(work: &mut [u32], plan: Plan, s: usize, undecided: bool)
    requires { (s < plan.sentences) × Reaches (marks plan) work.old }
    ensures { OpenSet plan work.old work.new s undecided }
{
    let k = plan.lines() + s;
    let e = work[k] % UNDECIDED;
    work[k] = if undecided { e + UNDECIDED } else { e };
}

impl<'b, 'w> Entries<'b, 'w> {
    // Whether it is noted of the sentence s.
    pub fn is_undecided(&self, s: usize) -> bool
        requires { (s < self.now.plan.sentences) × Reaches (marks self.now.plan) self.now.work.now }
        ensures { result ≡ is_open self.now.plan self.now.work.now s }
    {
        let k = self.plan.lines() + s;
        self.work[k] / UNDECIDED == 1
    }
}

// Asks for every sentence of the f-th function.
fn note_sentences(b: &[u8], work: &mut [u32], plan: Plan, f: usize)
    requires { SomeReadable b.now work.old plan × (f < plan.functions) }
    ensures { (w : Program) (x : Function) → Readable b.now w work.old plan → get_elem? w.functions f ≡ some x → OpenUpto w work.old work.new plan f x (sentences_before (suc f) w.functions) }
{
    let own = Entries { b, work, plan }.sentences_of(f);
    for s in own.start..own.end {
        let undecided = stays_open(b, work, plan, f, s);
        set_open(work, plan, s, undecided);
    }
}

// The same, if a round would judge the f-th function: of the others nothing is told.
fn note_if_judged(b: &[u8], work: &mut [u32], plan: Plan, f: usize)
    requires { SomeReadable b.now work.old plan × (f < plan.functions) }
    ensures { (w : Program) (x : Function) → Readable b.now w work.old plan → get_elem? w.functions f ≡ some x → FunctionOpen w work.old work.new plan f x }
{
    if !is_judged(work, plan, f, AFTER_ALL) {
        return;
    }
    note_sentences(b, work, plan, f);
}

// Notes of every sentence whether it is undecided.
pub fn note_undecided(b: &[u8], work: &mut [u32], plan: Plan)
    requires { SomeReadable b.now work.old plan }
    ensures { (w : Program) → Readable b.now w work.old plan → DecidedUpto w work.old work.new plan plan.functions }
{
    for f in 0..plan.functions {
        note_if_judged(b, work, plan, f);
    }
}
