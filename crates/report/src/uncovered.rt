// The uncovered restrictions: those that are Disjoint from every sentence of their function.
// A list of sites goes from entry to entry of the lent memory: no range knows which.
ghost use Rattle.std.specs.Prelude.{◌≡◌, true, false, ◌&&◌, not, ℕ, ◌+◌, ◌*◌, ◌<◌, ◌≤◌, eqb, length, get_or};
ghost use mathlib.Core.List.{List, [], flat_map};
ghost use Rattle.std.proofs.Math.Option.{some};
ghost use Rattle.std.proofs.Math.ListN.{get_elem?};
ghost use Rattle.program.specs.Syntax.{Function, Program};
ghost use Rattle.program.specs.Sentences.{Sentence};
ghost use Rattle.patterns.specs.Search.{patterns_overlap};
ghost use Rattle.told.specs.Numbered.{Held, sentences_before, sites_of};
ghost use Rattle.told.specs.Calls.{is_listed};
ghost use Rattle.told.specs.Asked.{is_judged};
ghost use Rattle.meaning.specs.Cleaning.{is_disjoint};
ghost use Rattle.meaning.specs.CleanReport.{same_uncovered};
ghost use Rattle.told.specs.History.{is_there, after_all};
ghost use Rattle.index.specs.Layout.{witnesses, room, Reaches};
ghost use Rattle.cleaning.specs.Indexed.{SomeBody, fell_of};
ghost use Rattle.cleaning.specs.Room.{Used};
ghost use Rattle.cleaning.specs.Walks.{Owns};
ghost use Rattle.told.specs.ToldReport.{uncovered_in, judged_only, uncovered_told, runs_after};
ghost use Rattle.text.specs.Fill.{limit};
ghost use Rattle.text.specs.Written.{written};
ghost use Rattle.meaning.specs.Report.{uncovered_line};
ghost use Rattle.report.specs.Emitting.{Readable, SomeReadable};
ghost use Rattle.report.specs.Leading.{SomeSite};
ghost use Rattle.report.specs.Listing.{SomeStands};
ghost use Rattle.report.specs.Uncovered.{is_uncovered, uncovered_at, Uncovered};

use crate::AFTER_ALL;
use crate::entries::Entries;
use crate::listing::{Candidate, Listed};
use cleaning::verdict::verdict_at;
use cleaning::walks::{is_judged, is_there};
use index::Plan;
use index::table::{Kind, head_site, next_site};
use patterns::Verdict;
use text::writer::Writer;

// Whether the sentence s is left, and not Disjoint from the argument of the plain site i, which is left too. The witness
// tells it of the sites up to its own; the others are asked.
fn covers(b: &[u8], work: &mut [u32], plan: Plan, s: usize, i: usize) -> bool
    requires { SomeSite b.now work.old plan i × (s < plan.sentences) }
    ensures answers { (w : Program) (f : ℕ) (x : Function) (y : Held) (z : Sentence) → Readable b.now w work.old plan → Owns w f x s z → get_elem? (sites_of w) i ≡ some y → is_listed true x.name y ≡ true → is_there (fell_of plan work.old) after_all y.sentence ≡ true → result ≡ (is_there (fell_of plan work.old) after_all s && not (is_disjoint (patterns_overlap z.pattern y.site.argument))) }
    ensures keeps { Used plan work.old work.new }
{
    if !is_there(work, plan, s, AFTER_ALL) {
        return false;
    }
    let k = plan.witnesses() + s;
    let witness = work[k] as usize;
    if i + 1 < witness {
        return false;
    }
    if i + 1 == witness {
        return true;
    }
    let pattern = plan.pattern_place(work, s);
    verdict_at(b, work, plan, pattern, i) != Verdict::Disjoint
}

impl<'b, 'w> Entries<'b, 'w> {
    // Whether the plain site i is the witness of the sentence s, which is left.
    fn is_witness(&self, s: usize, i: usize) -> bool
        requires { (s < self.now.plan.sentences) × (i < self.now.plan.sites) × Reaches (room self.now.plan) self.now.work.now }
        ensures { result ≡ (is_there (fell_of self.now.plan self.now.work.now) after_all s && eqb (get_or self.now.work.now (witnesses self.now.plan + s) 0) (i + 1)) }
    {
        let k = self.plan.witnesses() + s;
        is_there(self.work, self.plan, s, AFTER_ALL) && self.work[k] as usize == i + 1
    }

    // Whether it is that of a sentence of the f-th function, which then covers it.
    fn is_witnessed(&self, f: usize, i: usize) -> bool
        requires { SomeBody self.now.work.now self.now.plan × (f < self.now.plan.functions) × (i < self.now.plan.sites) }
        ensures { (b : List ℕ) (w : Program) (x : Function) (y : Held) → Readable b w self.now.work.now self.now.plan → get_elem? w.functions f ≡ some x → get_elem? (sites_of w) i ≡ some y → result ≡ true → is_uncovered (is_there (fell_of self.now.plan self.now.work.now) after_all) x (sentences_before f w.functions) y.site.argument ≡ false }
    {
        let own = self.sentences_of(f);
        for s in own.start..own.end {
            if self.is_witness(s, i) {
                return true;
            }
        }
        false
    }
}

// Whether some sentence of the f-th function covers the argument of the plain site i. The search changes `work`, and of what
// a closure changes `any` tells nothing.
fn any_covers(b: &[u8], work: &mut [u32], plan: Plan, f: usize, i: usize) -> bool
    requires { SomeSite b.now work.old plan i × (f < plan.functions) }
    ensures answers { (w : Program) (x : Function) (y : Held) → Readable b.now w work.old plan → get_elem? w.functions f ≡ some x → get_elem? (sites_of w) i ≡ some y → is_listed true x.name y ≡ true → is_there (fell_of plan work.old) after_all y.sentence ≡ true → is_uncovered (is_there (fell_of plan work.old) after_all) x (sentences_before f w.functions) y.site.argument ≡ not result }
    ensures keeps { Used plan work.old work.new }
{
    let own = Entries { b, work, plan }.sentences_of(f);
    for s in own.start..own.end {
        if covers(b, work, plan, s, i) {
            return true;
        }
    }
    false
}

// The same; witnesses are looked at first, as they tell it without asking.
fn is_covered(b: &[u8], work: &mut [u32], plan: Plan, f: usize, i: usize) -> bool
    requires { SomeSite b.now work.old plan i × (f < plan.functions) }
    ensures answers { (w : Program) (x : Function) (y : Held) → Readable b.now w work.old plan → get_elem? w.functions f ≡ some x → get_elem? (sites_of w) i ≡ some y → is_listed true x.name y ≡ true → is_there (fell_of plan work.old) after_all y.sentence ≡ true → is_uncovered (is_there (fell_of plan work.old) after_all) x (sentences_before f w.functions) y.site.argument ≡ not result }
    ensures keeps { Used plan work.old work.new }
{
    Entries { b, work, plan }.is_witnessed(f, i) || any_covers(b, work, plan, f, i)
}

// Tells the plain site i of the f-th function, if it leads and is uncovered.
fn put_if_uncovered(
    b: &[u8],
    work: &mut [u32],
    plan: Plan,
    f: usize,
    i: usize,
    out: &mut Writer<'_>,
    listed: Listed,
) -> Listed
    requires { SomeSite b.now work.old plan i × (f < plan.functions) × ((w : Program) → Readable b.now w work.old plan → SomeStands b.now w listed.last) × (out.old.filled + 80000 ≤ limit) × (listed.count ≤ out.old.filled) }
    ensures told { (w : Program) (x : Function) (y : Held) → Readable b.now w work.old plan → get_elem? w.functions f ≡ some x → get_elem? (sites_of w) i ≡ some y → is_listed true x.name y ≡ true → Uncovered b.now w (uncovered_at (is_there (fell_of plan work.old) after_all) (sites_of w) x (sentences_before f w.functions) i y) out.old listed.count listed.last out.new result.count result.last }
    ensures short { (out.new.filled ≤ out.old.filled + 80000) × (result.count ≤ out.new.filled) }
    ensures keeps { Used plan work.old work.new }
{
    let leading = Entries { b, work, plan }.leads(i, AFTER_ALL);
    if !leading || is_covered(b, work, plan, f, i) {
        return listed;
    }
    let entries = Entries { b, work, plan };
    let next = Candidate {
        function: f,
        terms: entries.argument_of(i),
    };
    entries.put_candidate(next, b" <- ", b"\n", out, listed)
}

// Tells the uncovered restrictions of the f-th function.
fn put_uncovered_in(
    b: &[u8],
    work: &mut [u32],
    plan: Plan,
    f: usize,
    out: &mut Writer<'_>,
    listed: Listed,
) -> Listed
    requires { SomeReadable b.now work.old plan × (f < plan.functions) × ((w : Program) → Readable b.now w work.old plan → SomeStands b.now w listed.last) × (out.old.filled + 8192 * 80000 ≤ limit) × (listed.count ≤ out.old.filled) }
    ensures told { (w : Program) (x : Function) → Readable b.now w work.old plan → get_elem? w.functions f ≡ some x → Uncovered b.now w (uncovered_in (is_there (fell_of plan work.old) after_all) (sites_of w) (sentences_before f w.functions) x) out.old listed.count listed.last out.new result.count result.last }
    ensures short { (out.new.filled ≤ out.old.filled + 8192 * 80000) × (result.count ≤ out.new.filled) }
    ensures keeps { Used plan work.old work.new }
{
    let links = plan.links();
    let mut i = head_site(work, plan.functions, f, Kind::Plain);
    let mut told = listed;
    while i < plan.sites {
        told = put_if_uncovered(b, work, plan, f, i, out, told);
        i = next_site(work, links, i);
    }
    told
}

// The same, if a round would judge the f-th function: the others give nothing.
fn put_if_judged(
    b: &[u8],
    work: &mut [u32],
    plan: Plan,
    f: usize,
    out: &mut Writer<'_>,
    listed: Listed,
) -> Listed
    requires { SomeReadable b.now work.old plan × (f < plan.functions) × ((w : Program) → Readable b.now w work.old plan → SomeStands b.now w listed.last) × (out.old.filled + 8192 * 80000 ≤ limit) × (listed.count ≤ out.old.filled) }
    ensures told { (w : Program) (x : Function) → Readable b.now w work.old plan → get_elem? w.functions f ≡ some x → Uncovered b.now w (judged_only (is_judged (is_there (fell_of plan work.old) after_all) x.name (sites_of w)) (uncovered_in (is_there (fell_of plan work.old) after_all) (sites_of w) (sentences_before f w.functions) x)) out.old listed.count listed.last out.new result.count result.last }
    ensures short { (out.new.filled ≤ out.old.filled + 8192 * 80000) × (result.count ≤ out.new.filled) }
    ensures keeps { Used plan work.old work.new }
{
    if !is_judged(work, plan, f, AFTER_ALL) {
        return listed;
    }
    put_uncovered_in(b, work, plan, f, out, listed)
}

// Every uncovered restriction as a line, neighbouring repeats left out. Functions of one name share their sites, so
// there may be a line for each function and site.
pub fn put_uncovered(b: &[u8], work: &mut [u32], plan: Plan, out: &mut Writer<'_>) -> usize
    requires { SomeReadable b.now work.old plan × (out.old.filled + 8192 * (8192 * 80000) ≤ limit) }
    ensures told { (w : Program) → Readable b.now w work.old plan → out.new ≡ written out.old (flat_map uncovered_line (runs_after same_uncovered [] (uncovered_told (is_there (fell_of plan work.old) after_all) (sites_of w) 0 w.functions))) }
    ensures counted { (w : Program) → Readable b.now w work.old plan → result ≡ length (runs_after same_uncovered [] (uncovered_told (is_there (fell_of plan work.old) after_all) (sites_of w) 0 w.functions)) }
    ensures short { out.new.filled ≤ out.old.filled + 8192 * (8192 * 80000) }
    ensures keeps { Used plan work.old work.new }
{
    let mut told = Listed {
        count: 0,
        last: None,
    };
    for f in 0..plan.functions {
        told = put_if_judged(b, work, plan, f, out, told);
    }
    told.count
}
