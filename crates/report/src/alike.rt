// Whether two functions have the same name, and two sentences the same text.
ghost use Rattle.std.specs.Prelude.{◌≡◌, ◌<◌};
ghost use Rattle.std.proofs.Math.Option.{some};
ghost use Rattle.std.proofs.Math.ListN.{get_elem?};
ghost use Rattle.program.specs.Syntax.{Function, Program};
ghost use Rattle.program.specs.Sentences.{Sentence, own_sentences};
ghost use Rattle.patterns.specs.Names.{eq_bytes, same_name};
ghost use Rattle.meaning.specs.Text.{format_terms};
ghost use Rattle.report.specs.Entries.{Reads, SomeReads};

use crate::entries::Entries;
use compare::same_text;
use index::names::function_name;
use index::table::{Kind, head_site, place_of};
use symbols::same_name;

impl<'b, 'w> Entries<'b, 'w> {
    // Whether the names of the functions f and g are the same, byte by byte.
    pub fn same_function(&self, f: usize, g: usize) -> bool
        requires { SomeReads self.now × (f < self.now.plan.functions) × (g < self.now.plan.functions) }
        ensures { (w : Program) (x y : Function) → Reads self.now w → get_elem? w.functions f ≡ some x → get_elem? w.functions g ≡ some y → result ≡ eq_bytes x.name y.name }
    {
        let p = place_of(self.work, f);
        let q = place_of(self.work, g);
        function_name(self.b, p) == function_name(self.b, q)
    }

    // Whether the g-th and the f-th function have the same name, without regard to case. Those that do share their lists of
    // sites, and a site calls one name only; so names are read only where there are no sites.
    pub fn same_names(&self, g: usize, f: usize) -> bool
        requires { SomeReads self.now × (g < self.now.plan.functions) × (f < self.now.plan.functions) }
        ensures { (w : Program) (v x : Function) → Reads self.now w → get_elem? w.functions g ≡ some v → get_elem? w.functions f ≡ some x → result ≡ same_name v.name x.name }
    {
        let h = self.plan.functions + g;
        let k = self.plan.functions + f;
        if self.work[h] != self.work[k] {
            return false;
        }
        if head_site(self.work, self.plan.functions, f, Kind::Plain) < self.plan.sites
            || head_site(self.work, self.plan.functions, f, Kind::Other) < self.plan.sites
        {
            return true;
        }
        let p = place_of(self.work, g);
        let q = place_of(self.work, f);
        same_name(function_name(self.b, p), function_name(self.b, q))
    }

    // Whether the patterns of the sentences s and t have the same text.
    pub fn same_pattern(&self, s: usize, t: usize) -> bool
        requires { SomeReads self.now × (s < self.now.plan.sentences) × (t < self.now.plan.sentences) }
        ensures { (w : Program) (x y : Sentence) → Reads self.now w → get_elem? (own_sentences w.functions) s ≡ some x → get_elem? (own_sentences w.functions) t ≡ some y → result ≡ eq_bytes (format_terms x.pattern) (format_terms y.pattern) }
    {
        let p = self.plan.pattern_place(self.work, s);
        let q = self.plan.pattern_place(self.work, t);
        same_text(&self.b[p..], &self.b[q..])
    }
}
