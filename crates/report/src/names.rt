// The functions that a call or block in an argument makes uncharacterised.
ghost use Rattle.std.specs.Prelude.{◌≡◌, true, ◌&&◌, List, ℕ, ◌+◌, ◌*◌, ◌<◌, ◌≤◌, eqb, length, take};
ghost use Rattle.std.proofs.Math.Option.{some};
ghost use Rattle.std.proofs.Math.ListN.{get_elem?};
ghost use Rattle.program.specs.Syntax.{Function, Program};
ghost use Rattle.patterns.specs.Names.{same_name};
ghost use Rattle.meaning.specs.Lists.{any, firsts};
ghost use Rattle.told.specs.Asked.{uncharacterises};
ghost use Rattle.told.specs.Numbered.{sites_of};
ghost use Rattle.cleaning.specs.Indexed.{Indexed, SomeBody};
ghost use Rattle.told.specs.ToldReport.{uncharacterised_names};
ghost use Rattle.text.specs.Fill.{limit};
ghost use Rattle.text.specs.Written.{written};
ghost use Rattle.meaning.specs.Report.{uncharacterised_line};
ghost use Rattle.report.specs.Entries.{Reads, SomeReads};
ghost use Rattle.report.specs.Names.{is_uncharacterised, is_newly_uncharacterised, lead, uncharacterised_text, uncharacterised_count, line_end};

use crate::entries::Entries;
use index::table::{Kind, head_site};
use text::writer::Writer;

// What stands before a name: a flag, as the definition of the line has it (`lead`).
fn put_lead(out: &mut Writer<'_>, first: bool)
    requires { out.old.filled + 17 ≤ limit }
    ensures { (out.new ≡ written out.old (lead first)) × (out.new.filled ≤ out.old.filled + 17) }
{
    if first {
        return out.put_bytes(b"uncharacterised: ");
    }
    out.put_bytes(b", ");
}

// The end of the line, if it has a name.
fn put_line_end(out: &mut Writer<'_>, count: usize)
    requires { out.old.filled < limit }
    ensures { (out.new ≡ written out.old (line_end (eqb count 0))) × (out.new.filled ≤ out.old.filled + 1) }
{
    if count == 0 {
        return;
    }
    out.put_byte(b'\n');
}

impl<'b, 'w> Entries<'b, 'w> {
    // Whether a site uncharacterises the f-th function.
    fn has_call_in_argument(&self, f: usize) -> bool
        requires { SomeBody self.now.work.now self.now.plan × (f < self.now.plan.functions) }
        ensures { (b : List ℕ) (w : Program) (x : Function) → Indexed b w self.now.work.now self.now.plan → get_elem? w.functions f ≡ some x → result ≡ any (uncharacterises (λ s. true) x.name) (sites_of w) }
    {
        head_site(self.work, self.plan.functions, f, Kind::Other) < self.plan.sites
    }

    // The same of a function that is not the root.
    fn is_uncharacterised(&self, root: usize, f: usize) -> bool
        requires { SomeBody self.now.work.now self.now.plan × (f < self.now.plan.functions) }
        ensures { (b : List ℕ) (w : Program) (x : Function) → Indexed b w self.now.work.now self.now.plan → get_elem? w.functions f ≡ some x → result ≡ is_uncharacterised root (sites_of w) f x }
    {
        f != root && self.has_call_in_argument(f)
    }

    // Whether the g-th function is listed under the name of the f-th.
    fn is_namesake(&self, root: usize, g: usize, f: usize) -> bool
        requires { SomeReads self.now × (g < self.now.plan.functions) × (f < self.now.plan.functions) }
        ensures { (w : Program) (y x : Function) → Reads self.now w → get_elem? w.functions g ≡ some y → get_elem? w.functions f ≡ some x → result ≡ (is_uncharacterised root (sites_of w) g y && same_name y.name x.name) }
    {
        self.is_uncharacterised(root, g) && self.same_names(g, f)
    }

    // Whether an earlier function is listed under the name of the f-th.
    fn is_named_before(&self, root: usize, f: usize) -> bool
        requires { SomeReads self.now × (f < self.now.plan.functions) }
        ensures { (w : Program) (x : Function) → Reads self.now w → get_elem? w.functions f ≡ some x → result ≡ any (λ n. same_name n x.name) (uncharacterised_names root (sites_of w) 0 (take f w.functions)) }
    {
        for g in 0..f {
            if self.is_namesake(root, g, f) {
                return true;
            }
        }
        false
    }

    // Whether the f-th function is the first that is listed under its name.
    fn is_newly_uncharacterised(&self, root: usize, f: usize) -> bool
        requires { SomeReads self.now × (f < self.now.plan.functions) }
        ensures { (w : Program) (x : Function) → Reads self.now w → get_elem? w.functions f ≡ some x → result ≡ is_newly_uncharacterised root w f x }
    {
        self.is_uncharacterised(root, f) && !self.is_named_before(root, f)
    }

    // The f-th function, if it is listed; the number of names is counted on.
    fn put_if_uncharacterised(
        &self,
        root: usize,
        f: usize,
        out: &mut Writer<'_>,
        count: usize,
    ) -> usize
        requires { SomeReads self.now × (f < self.now.plan.functions) × (out.old.filled + 32785 ≤ limit) × (count ≤ f) }
        ensures written { (w : Program) (x : Function) → Reads self.now w → get_elem? w.functions f ≡ some x → out.new ≡ written out.old (uncharacterised_text root w f x (eqb count 0)) }
        ensures counted { (w : Program) (x : Function) → Reads self.now w → get_elem? w.functions f ≡ some x → result ≡ count + uncharacterised_count root w f x }
        ensures short { (out.new.filled ≤ out.old.filled + 32785) × (result ≤ count + 1) }
    {
        if !self.is_newly_uncharacterised(root, f) {
            return count;
        }
        put_lead(out, count == 0);
        self.put_name(f, out);
        count + 1
    }

    // The line of uncharacterised functions, each name once; nothing, if there is none. It hands back how many there are.
    pub fn put_uncharacterised(&self, root: usize, out: &mut Writer<'_>) -> usize
        requires { SomeReads self.now × (out.old.filled + 8192 * 32800 ≤ limit) }
        ensures written { (w : Program) → Reads self.now w → out.new ≡ written out.old (uncharacterised_line (firsts same_name (uncharacterised_names root (sites_of w) 0 w.functions))) }
        ensures counted { (w : Program) → Reads self.now w → result ≡ length (firsts same_name (uncharacterised_names root (sites_of w) 0 w.functions)) }
        ensures short { (out.new.filled ≤ out.old.filled + 8192 * 32800) × (result ≤ 8192) }
    {
        let mut count: usize = 0;
        for f in 0..self.plan.functions {
            count = self.put_if_uncharacterised(root, f, out, count);
        }
        put_line_end(out, count);
        count
    }
}
