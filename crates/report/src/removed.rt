// The lines of the removed sentences: round by round, each name and text once.
ghost use Rattle.std.specs.Prelude.{◌≡◌, ℕ, ◌+◌, ◌*◌, ◌<◌, ◌≤◌, length};
ghost use mathlib.Core.List.{[], map, flat_map};
ghost use Rattle.std.proofs.Math.Option.{some};
ghost use Rattle.std.proofs.Math.ListN.{get_elem?};
ghost use Rattle.program.specs.Syntax.{Function, Program};
ghost use Rattle.program.specs.Sentences.{Sentence, own_sentences};
ghost use Rattle.meaning.specs.Lists.{firsts};
ghost use Rattle.told.specs.Numbered.{sentences_before, sites_of};
ghost use Rattle.told.specs.History.{is_there};
ghost use Rattle.cleaning.specs.Indexed.{fell_of};
ghost use Rattle.cleaning.specs.Walks.{Owns};
ghost use Rattle.told.specs.ToldReport.{fallen_of, fallen_in, fallen_from, restrictions_at, removed_of, same_fallen};
ghost use Rattle.text.specs.Fill.{limit};
ghost use Rattle.text.specs.Written.{written};
ghost use Rattle.meaning.specs.Report.{removed_line};
ghost use Rattle.report.specs.Entries.{Reads, SomeReads};
ghost use Rattle.report.specs.Removed.{Listed, Removing, SomeRemoving, SomeRounds, SomeRemoval, fallen_at, longest, WithinFunction};

use crate::entries::Entries;
use cleaning::walks::fell;
use text::writer::Writer;

impl<'b, 'w> Entries<'b, 'w> {
    // The line of the sentence s of the f-th function, which fell in the round.
    fn put_removed_line(&self, f: usize, s: usize, round: usize, out: &mut Writer<'_>)
        requires { SomeReads self.now × (f < self.now.plan.functions) × (s < self.now.plan.sentences) × (out.old.filled + longest ≤ limit) }
        ensures written { (w : Program) (x : Function) (y : Sentence) → Reads self.now w → get_elem? w.functions f ≡ some x → get_elem? (own_sentences w.functions) s ≡ some y → (restrictions_at (is_there (fell_of self.now.plan self.now.work.now) round) x.name (sites_of w) ≡ [] → ⊥) → out.new ≡ written out.old (removed_line (removed_of w (fell_of self.now.plan self.now.work.now) (record { round = round; function = x; number = s; sentence = y }))) }
        ensures short { out.new.filled ≤ out.old.filled + longest }
    {
        self.put_sentence(f, s, out);
        out.put_bytes(b" rejected by");
        self.put_restrictions(f, round, out);
        out.put_byte(b'\n');
    }

    // The same if it fell in the round and is no repeat; the number of lines is counted on.
    fn put_if_removed(
        &self,
        f: usize,
        s: usize,
        round: usize,
        out: &mut Writer<'_>,
        count: usize,
    ) -> usize
        requires { SomeRemoval self.now.b.now self.now.work.now self.now.plan f s × (0 < round) × (out.old.filled + longest ≤ limit) × (count < limit) }
        ensures written { (w : Program) (n : ℕ) (x : Function) (y : Sentence) → Removing self.now.b.now w self.now.work.now self.now.plan n → Owns w f x s y → Listed w (fell_of self.now.plan self.now.work.now) n (fallen_at (fell_of self.now.plan self.now.work.now) round x s y) out.old count out.new result }
        ensures short { (out.new.filled ≤ out.old.filled + longest) × (result ≤ count + 1) }
    {
        if fell(self.work, self.plan, s) != Some(round) || self.is_repeated(f, s, round) {
            return count;
        }
        self.put_removed_line(f, s, round, out);
        count + 1
    }

    // The lines of the f-th function's sentences that fell in the round.
    fn put_removed_in(&self, f: usize, round: usize, out: &mut Writer<'_>, count: usize) -> usize
        requires { SomeRounds self.now.b.now self.now.work.now self.now.plan × (f < self.now.plan.functions) × (0 < round) × (out.old.filled + 4097 * longest ≤ limit) × (count + 4097 ≤ limit) }
        ensures written { (w : Program) (n : ℕ) (x : Function) → Removing self.now.b.now w self.now.work.now self.now.plan n → get_elem? w.functions f ≡ some x → Listed w (fell_of self.now.plan self.now.work.now) n (fallen_of (fell_of self.now.plan self.now.work.now) round x (sentences_before f w.functions) x.sentences) out.old count out.new result }
        ensures short { (w : Program) (n : ℕ) → Removing self.now.b.now w self.now.work.now self.now.plan n → WithinFunction w f out.old.filled count out.new.filled result }
    {
        let own = self.sentences_of(f);
        let mut all = count;
        for s in own.start..own.end {
            all = self.put_if_removed(f, s, round, out, all);
        }
        all
    }

    // The lines of all sentences that fell in the round.
    fn put_removed_round(&self, round: usize, out: &mut Writer<'_>, count: usize) -> usize
        requires { SomeRounds self.now.b.now self.now.work.now self.now.plan × (0 < round) × (out.old.filled + 8193 * longest ≤ limit) × (count + 8193 ≤ limit) }
        ensures written { (w : Program) (n : ℕ) → Removing self.now.b.now w self.now.work.now self.now.plan n → Listed w (fell_of self.now.plan self.now.work.now) n (fallen_in (fell_of self.now.plan self.now.work.now) round 0 w.functions) out.old count out.new result }
        ensures short { (out.new.filled ≤ out.old.filled + 4096 * longest) × (result ≤ count + 4096) }
    {
        let mut all = count;
        for f in 0..self.plan.functions {
            all = self.put_removed_in(f, round, out, all);
        }
        all
    }

    // The lines of all removed sentences, of so many rounds, and how many they are.
    pub fn put_removed(&self, rounds: usize, out: &mut Writer<'_>) -> usize
        requires { SomeRemoving self.now.b.now self.now.work.now self.now.plan rounds × (rounds < 4096) × (out.old.filled + 4096 * 8192 * longest ≤ limit) }
        ensures written { (w : Program) → Removing self.now.b.now w self.now.work.now self.now.plan rounds → out.new ≡ written out.old (flat_map removed_line (map (removed_of w (fell_of self.now.plan self.now.work.now)) (firsts same_fallen (fallen_from w (fell_of self.now.plan self.now.work.now) 1 rounds)))) }
        ensures counted { (w : Program) → Removing self.now.b.now w self.now.work.now self.now.plan rounds → result ≡ length (firsts same_fallen (fallen_from w (fell_of self.now.plan self.now.work.now) 1 rounds)) }
        ensures short { out.new.filled ≤ out.old.filled + 4096 * 8192 * longest }
    {
        let mut count: usize = 0;
        for round in 1..=rounds {
            count = self.put_removed_round(round, out, count);
        }
        count
    }
}
