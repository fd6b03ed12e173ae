// The undecided sentences: those that no restriction gives Overlap. `put_candidate` tells them and the uncovered restrictions; the
// loops of the two stay apart, since only the others ask the search, which changes work.
ghost use Rattle.std.specs.Prelude.{◌≡◌, suc, ◌+◌, ◌*◌, ◌<◌, ◌≤◌, length};
ghost use mathlib.Core.List.{[], flat_map};
ghost use Rattle.std.proofs.Math.Option.{some};
ghost use Rattle.std.proofs.Math.ListN.{get_elem?};
ghost use Rattle.program.specs.Syntax.{Function, Program};
ghost use Rattle.program.specs.Sentences.{Sentence};
ghost use Rattle.told.specs.Numbered.{sentences_before, sites_of};
ghost use Rattle.told.specs.Asked.{is_judged};
ghost use Rattle.meaning.specs.CleanReport.{same_undecided};
ghost use Rattle.told.specs.History.{is_there, after_all};
ghost use Rattle.cleaning.specs.Indexed.{fell_of};
ghost use Rattle.told.specs.ToldReport.{undecided_in, judged_only, undecided_told, runs_after};
ghost use Rattle.cleaning.specs.Walks.{Owns};
ghost use Rattle.text.specs.Fill.{limit};
ghost use Rattle.text.specs.Written.{written};
ghost use Rattle.meaning.specs.Report.{undecided_line};
ghost use Rattle.report.specs.Emitting.{SomeSentence, Decided, Judged};
ghost use Rattle.report.specs.Entries.{Reads, SomeReads};
ghost use Rattle.report.specs.Listing.{SomeStands};
ghost use Rattle.report.specs.Undecided.{undecided_at, Undecided};

use crate::AFTER_ALL;
use crate::entries::Entries;
use crate::listing::{Candidate, Listed};
use cleaning::walks::is_judged;
use text::writer::Writer;

impl<'b, 'w> Entries<'b, 'w> {
    // Tells the sentence s of the f-th function, if it is left and undecided.
    fn put_if_undecided(&self, f: usize, s: usize, out: &mut Writer<'_>, listed: Listed) -> Listed
        requires { SomeSentence self.now.b.now self.now.work.now self.now.plan f s × ((w : Program) → Reads self.now w → SomeStands self.now.b.now w listed.last) × (out.old.filled + 80000 ≤ limit) × (listed.count ≤ out.old.filled) × Decided self.now.b.now self.now.work.now self.now.plan × Judged self.now.b.now self.now.work.now self.now.plan f }
        ensures told { (w : Program) (x : Function) (y : Sentence) → Reads self.now w → Owns w f x s y → Undecided self.now.b.now w (undecided_at (is_there (fell_of self.now.plan self.now.work.now) after_all) (sites_of w) x s y) out.old listed.count listed.last out.new result.count result.last }
        ensures short { (out.new.filled ≤ out.old.filled + 80000) × (result.count ≤ out.new.filled) }
    {
        if !self.is_undecided(s) {
            return listed;
        }
        let next = Candidate {
            function: f,
            terms: self.plan.pattern_place(self.work, s),
        };
        self.put_candidate(next, b" {", b"}\n", out, listed)
    }

    // Tells the undecided sentences of the f-th function.
    fn put_undecided_in(&self, f: usize, out: &mut Writer<'_>, listed: Listed) -> Listed
        requires { SomeReads self.now × (f < self.now.plan.functions) × ((w : Program) → Reads self.now w → SomeStands self.now.b.now w listed.last) × ((w : Program) → Reads self.now w → out.old.filled + 80000 * sentences_before (suc f) w.functions ≤ limit + 80000 * sentences_before f w.functions) × (listed.count ≤ out.old.filled) × Decided self.now.b.now self.now.work.now self.now.plan × Judged self.now.b.now self.now.work.now self.now.plan f }
        ensures told { (w : Program) (x : Function) → Reads self.now w → get_elem? w.functions f ≡ some x → Undecided self.now.b.now w (undecided_in (is_there (fell_of self.now.plan self.now.work.now) after_all) (sites_of w) (sentences_before f w.functions) x) out.old listed.count listed.last out.new result.count result.last }
        ensures short { ((w : Program) → Reads self.now w → out.new.filled + 80000 * sentences_before f w.functions ≤ out.old.filled + 80000 * sentences_before (suc f) w.functions) × (result.count ≤ out.new.filled) }
    {
        let own = self.sentences_of(f);
        let mut told = listed;
        for s in own.start..own.end {
            told = self.put_if_undecided(f, s, out, told);
        }
        told
    }

    // The same, if a round would judge the f-th function: the others give nothing.
    fn put_if_judged(&self, f: usize, out: &mut Writer<'_>, listed: Listed) -> Listed
        requires { SomeReads self.now × (f < self.now.plan.functions) × ((w : Program) → Reads self.now w → SomeStands self.now.b.now w listed.last) × ((w : Program) → Reads self.now w → out.old.filled + 80000 * sentences_before (suc f) w.functions ≤ limit + 80000 * sentences_before f w.functions) × (listed.count ≤ out.old.filled) × Decided self.now.b.now self.now.work.now self.now.plan }
        ensures told { (w : Program) (x : Function) → Reads self.now w → get_elem? w.functions f ≡ some x → Undecided self.now.b.now w (judged_only (is_judged (is_there (fell_of self.now.plan self.now.work.now) after_all) x.name (sites_of w)) (undecided_in (is_there (fell_of self.now.plan self.now.work.now) after_all) (sites_of w) (sentences_before f w.functions) x)) out.old listed.count listed.last out.new result.count result.last }
        ensures short { ((w : Program) → Reads self.now w → out.new.filled + 80000 * sentences_before f w.functions ≤ out.old.filled + 80000 * sentences_before (suc f) w.functions) × (result.count ≤ out.new.filled) }
    {
        if !is_judged(self.work, self.plan, f, AFTER_ALL) {
            return listed;
        }
        self.put_undecided_in(f, out, listed)
    }

    // Every undecided sentence as a line, neighbouring repeats left out.
    pub fn put_undecided(&self, out: &mut Writer<'_>) -> usize
        requires { SomeReads self.now × (out.old.filled + 8192 * 80000 ≤ limit) × Decided self.now.b.now self.now.work.now self.now.plan }
        ensures told { (w : Program) → Reads self.now w → out.new ≡ written out.old (flat_map undecided_line (runs_after same_undecided [] (undecided_told (is_there (fell_of self.now.plan self.now.work.now) after_all) (sites_of w) 0 w.functions))) }
        ensures counted { (w : Program) → Reads self.now w → result ≡ length (runs_after same_undecided [] (undecided_told (is_there (fell_of self.now.plan self.now.work.now) after_all) (sites_of w) 0 w.functions)) }
        ensures short { out.new.filled ≤ out.old.filled + 8192 * 80000 }
    {
        let mut told = Listed {
            count: 0,
            last: None,
        };
        for f in 0..self.plan.functions {
            told = self.put_if_judged(f, out, told);
        }
        told.count
    }
}
