// Whether a sentence that fell repeats one that fell before it: same function name, same text.
ghost use Rattle.std.specs.Prelude.{◌≡◌, ◌&&◌, ◌||◌, not, ℕ, suc, ◌<◌, ◌≤◌, eqb, ltb};
ghost use Rattle.std.proofs.Math.Option.{some};
ghost use Rattle.std.proofs.Math.ListN.{get_elem?};
ghost use Rattle.program.specs.Syntax.{Function, Program};
ghost use Rattle.program.specs.Sentences.{Sentence, own_sentences};
ghost use Rattle.told.specs.Numbered.{sentences_before};
ghost use Rattle.cleaning.specs.Indexed.{fell_of, FellIn};
ghost use Rattle.report.specs.Entries.{Reads, SomeReads};
ghost use Rattle.report.specs.Removed.{is_repeated, prints, PrintedIn, RepeatedIn};

use crate::entries::Entries;
use cleaning::walks::fell;

// Whether the sentence t fell before the sentence s in the round.
fn is_earlier(fell: Option<usize>, t: usize, round: usize, s: usize) -> bool
    ensures { (k : ℕ) → FellIn k fell → result ≡ (not (eqb k 0) && (ltb k round || (eqb k round && ltb t s))) }
{
    match fell {
        None => false,
        Some(k) => k < round || (k == round && t < s),
    }
}

impl<'b, 'w> Entries<'b, 'w> {
    // The same, and whether the two have the same text.
    fn is_printed(&self, t: usize, s: usize, round: usize) -> bool
        requires { SomeReads self.now × (t < self.now.plan.sentences) × (s < self.now.plan.sentences) }
        ensures { (w : Program) (u y : Sentence) → Reads self.now w → get_elem? (own_sentences w.functions) t ≡ some u → get_elem? (own_sentences w.functions) s ≡ some y → result ≡ prints (fell_of self.now.plan self.now.work.now) round s y.pattern t u.pattern }
    {
        is_earlier(fell(self.work, self.plan, t), t, round, s) && self.same_pattern(t, s)
    }

    // Whether a sentence of the g-th function is such.
    fn printed_in(&self, g: usize, s: usize, round: usize) -> bool
        requires { SomeReads self.now × (g < self.now.plan.functions) × (s < self.now.plan.sentences) }
        ensures { (w : Program) (y : Sentence) → Reads self.now w → get_elem? (own_sentences w.functions) s ≡ some y → PrintedIn (fell_of self.now.plan self.now.work.now) round s y.pattern (own_sentences w.functions) (sentences_before g w.functions) (sentences_before (suc g) w.functions) result }
    {
        let own = self.sentences_of(g);
        for t in own.start..own.end {
            if self.is_printed(t, s, round) {
                return true;
            }
        }
        false
    }

    // Whether the g-th function has the name of the f-th and such a sentence.
    fn repeated_in(&self, g: usize, f: usize, s: usize, round: usize) -> bool
        requires { SomeReads self.now × (g < self.now.plan.functions) × (f < self.now.plan.functions) × (s < self.now.plan.sentences) }
        ensures { (w : Program) (v x : Function) (y : Sentence) → Reads self.now w → get_elem? w.functions g ≡ some v → get_elem? w.functions f ≡ some x → get_elem? (own_sentences w.functions) s ≡ some y → RepeatedIn (fell_of self.now.plan self.now.work.now) round s x.name y.pattern v.name (own_sentences w.functions) (sentences_before g w.functions) (sentences_before (suc g) w.functions) result }
    {
        self.same_names(g, f) && self.printed_in(g, s, round)
    }

    // Whether the sentence s of the f-th function, which fell in the round, repeats one that fell before it.
    pub fn is_repeated(&self, f: usize, s: usize, round: usize) -> bool
        requires { SomeReads self.now × (f < self.now.plan.functions) × (s < self.now.plan.sentences) }
        ensures { (w : Program) (n : ℕ) (x : Function) (y : Sentence) → Reads self.now w → ((t : ℕ) → fell_of self.now.plan self.now.work.now t ≤ n) → get_elem? w.functions f ≡ some x → get_elem? (own_sentences w.functions) s ≡ some y → result ≡ is_repeated w (fell_of self.now.plan self.now.work.now) n (record { round = round; function = x; number = s; sentence = y }) }
    {
        for g in 0..self.plan.functions {
            if self.repeated_in(g, f, s, round) {
                return true;
            }
        }
        false
    }
}
