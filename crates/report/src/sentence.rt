// The beginning of a line about a sentence.
ghost use Rattle.std.specs.Prelude.{◌≡◌, List, ℕ, suc, ◌+◌, ◌<◌, ◌≤◌};
ghost use Rattle.std.proofs.Math.Option.{some};
ghost use Rattle.std.proofs.Math.ListN.{get_elem?};
ghost use Rattle.program.specs.Syntax.{Function, Program};
ghost use Rattle.program.specs.Sentences.{Sentence, own_sentences};
ghost use Rattle.meaning.specs.Text.{format_terms};
ghost use Rattle.told.specs.Numbered.{sentences_before};
ghost use Rattle.cleaning.specs.Indexed.{Indexed, SomeBody};
ghost use Rattle.text.specs.Fill.{limit};
ghost use Rattle.text.specs.Written.{written};
ghost use Rattle.report.specs.Entries.{Reads, SomeReads};
ghost use Rattle.report.specs.Sentence.{sentence_text};

use crate::entries::Entries;
use cleaning::rounds::first_sentence;
use image::part::name_part;
use index::table::place_of;
use std::ops::Range;
use text::writer::Writer;

impl<'b, 'w> Entries<'b, 'w> {
    // The numbers of the f-th function's sentences.
    pub fn sentences_of(&self, f: usize) -> Range<usize>
        requires { SomeBody self.now.work.now self.now.plan × (f < self.now.plan.functions) }
        ensures are { (b : List ℕ) (w : Program) → Indexed b w self.now.work.now self.now.plan → (result.start ≡ sentences_before f w.functions) × (result.end ≡ sentences_before (suc f) w.functions) }
        ensures within { result.end ≤ self.now.plan.sentences }
    {
        first_sentence(self.work, self.plan, f)..first_sentence(self.work, self.plan, f + 1)
    }

    // The name of the f-th function.
    pub fn put_name(&self, f: usize, out: &mut Writer<'_>)
        requires { SomeReads self.now × (f < self.now.plan.functions) × (out.old.filled + 32768 ≤ limit) }
        ensures written { (w : Program) (x : Function) → Reads self.now w → get_elem? w.functions f ≡ some x → out.new ≡ written out.old x.name }
        ensures short { out.new.filled ≤ out.old.filled + 32768 }
    {
        let p = place_of(self.work, f) + 10;
        out.put_bytes(name_part(&self.b[p..]));
    }

    // The pattern of the sentence s.
    pub fn put_pattern(&self, s: usize, out: &mut Writer<'_>)
        requires { SomeReads self.now × (s < self.now.plan.sentences) × (out.old.filled + 32768 ≤ limit) }
        ensures written { (w : Program) (y : Sentence) → Reads self.now w → get_elem? (own_sentences w.functions) s ≡ some y → out.new ≡ written out.old (format_terms y.pattern) }
        ensures short { out.new.filled ≤ out.old.filled + 32768 }
    {
        let p = self.plan.pattern_place(self.work, s);
        out.format_terms(&self.b[p..]);
    }

    // The f-th function's name and the pattern of the sentence s.
    pub fn put_sentence(&self, f: usize, s: usize, out: &mut Writer<'_>)
        requires { SomeReads self.now × (f < self.now.plan.functions) × (s < self.now.plan.sentences) × (out.old.filled + 70000 ≤ limit) }
        ensures written { (w : Program) (x : Function) (y : Sentence) → Reads self.now w → get_elem? w.functions f ≡ some x → get_elem? (own_sentences w.functions) s ≡ some y → out.new ≡ written out.old (sentence_text x.name (format_terms y.pattern)) }
        ensures short { out.new.filled ≤ out.old.filled + 70000 }
    {
        out.put_bytes(b"  ");
        self.put_name(f, out);
        out.put_bytes(b" {");
        self.put_pattern(s, out);
        out.put_byte(b'}');
    }
}
