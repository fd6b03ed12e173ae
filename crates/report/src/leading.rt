// The restrictions of a function when a round begins, one after another.
// A list of sites goes from entry to entry of the lent memory: no range knows which.
ghost use Rattle.std.specs.Prelude.{◌≡◌, true, ℕ, ◌+◌, ◌*◌, ◌<◌, ◌≤◌, length};
ghost use mathlib.Core.List.{List, flat_map};
ghost use Rattle.std.proofs.Math.Option.{some};
ghost use Rattle.std.proofs.Math.ListN.{get_elem?};
ghost use Rattle.program.specs.Syntax.{Function, Program};
ghost use Rattle.told.specs.Numbered.{Held, sites_of};
ghost use Rattle.told.specs.Calls.{is_listed};
ghost use Rattle.told.specs.History.{is_there};
ghost use Rattle.cleaning.specs.Indexed.{fell_of};
ghost use Rattle.told.specs.ToldReport.{restrictions_at};
ghost use Rattle.text.specs.Fill.{limit};
ghost use Rattle.text.specs.Written.{written};
ghost use Rattle.report.specs.Emitting.{Readable};
ghost use Rattle.report.specs.Entries.{Reads, SomeReads};
ghost use Rattle.report.specs.Leading.{is_leading, SomeListed, SomeSite, angled_after, angled_if};
ghost use Rattle.report.specs.Uncovered.{ArgumentAt};

use crate::entries::Entries;
use cleaning::walks::site_there;
use index::classes::site_argument;
use index::table::{Kind, class_of, head_site, next_site};
use text::writer::Writer;

impl<'b, 'w> Entries<'b, 'w> {
    // Whether the site i is the first of its class that is there when the round begins: its note says as long as an earlier one is.
    pub fn leads(&self, i: usize, round: usize) -> bool
        requires { SomeListed self.now.work.now self.now.plan i }
        ensures { (b : List ℕ) (w : Program) (f : ℕ) (x : Function) (y : Held) → Readable b w self.now.work.now self.now.plan → get_elem? w.functions f ≡ some x → get_elem? (sites_of w) i ≡ some y → is_listed true x.name y ≡ true → result ≡ is_leading (is_there (fell_of self.now.plan self.now.work.now) round) x.name (sites_of w) i y }
    {
        if !site_there(self.work, self.plan, i, round) {
            return false;
        }
        if i <= class_of(self.work, self.plan.links(), i) {
            return true;
        }
        let k = self.plan.notes() + i;
        let last = self.work[k] as usize;
        last != 0 && last < round
    }

    // Where the argument of the plain site i begins in the body b.
    pub fn argument_of(&self, i: usize) -> usize
        requires { SomeSite self.now.b.now self.now.work.now self.now.plan i }
        ensures { (result ≤ length self.now.b.now) × ((w : Program) (f : ℕ) (x : Function) (y : Held) → Reads self.now w → get_elem? w.functions f ≡ some x → get_elem? (sites_of w) i ≡ some y → is_listed true x.name y ≡ true → ArgumentAt self.now.b.now result y.site.argument) }
    {
        let k = self.plan.calls() + i;
        site_argument(self.b, self.work[k])
    }

    // The argument of the site i between angle brackets, and a space before it.
    fn put_restriction(&self, i: usize, out: &mut Writer<'_>)
        requires { SomeSite self.now.b.now self.now.work.now self.now.plan i × (out.old.filled + 32800 ≤ limit) }
        ensures written { (w : Program) (f : ℕ) (x : Function) (y : Held) → Reads self.now w → get_elem? w.functions f ≡ some x → get_elem? (sites_of w) i ≡ some y → is_listed true x.name y ≡ true → out.new ≡ written out.old (angled_after y.site.argument) }
        ensures short { out.new.filled ≤ out.old.filled + 32800 }
    {
        let q = self.argument_of(i);
        out.put_byte(b' ');
        out.put_byte(b'<');
        out.format_terms(&self.b[q..]);
        out.put_byte(b'>');
    }

    // The same if the site leads, else nothing.
    fn put_if_leads(&self, i: usize, round: usize, out: &mut Writer<'_>)
        requires { SomeSite self.now.b.now self.now.work.now self.now.plan i × (out.old.filled + 32800 ≤ limit) }
        ensures written { (w : Program) (f : ℕ) (x : Function) (y : Held) → Reads self.now w → get_elem? w.functions f ≡ some x → get_elem? (sites_of w) i ≡ some y → is_listed true x.name y ≡ true → out.new ≡ written out.old (angled_if (is_leading (is_there (fell_of self.now.plan self.now.work.now) round) x.name (sites_of w) i y) y.site.argument) }
        ensures short { out.new.filled ≤ out.old.filled + 32800 }
    {
        if self.leads(i, round) {
            self.put_restriction(i, out);
        }
    }

    // Every restriction of the f-th function, each with a space before it.
    pub fn put_restrictions(&self, f: usize, round: usize, out: &mut Writer<'_>)
        requires { SomeReads self.now × (f < self.now.plan.functions) × (out.old.filled + 8192 * 32800 ≤ limit) }
        ensures written { (w : Program) (x : Function) → Reads self.now w → get_elem? w.functions f ≡ some x → out.new ≡ written out.old (flat_map angled_after (restrictions_at (is_there (fell_of self.now.plan self.now.work.now) round) x.name (sites_of w))) }
        ensures short { out.new.filled ≤ out.old.filled + 8192 * 32800 }
    {
        let links = self.plan.links();
        let mut i = head_site(self.work, self.plan.functions, f, Kind::Plain);
        while i < self.plan.sites {
            self.put_if_leads(i, round, out);
            i = next_site(self.work, links, i);
        }
    }
}
