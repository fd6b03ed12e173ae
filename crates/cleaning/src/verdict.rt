// The verdict of a pattern and the argument of a site.
ghost use Rattle.std.specs.Prelude.{◌≡◌, true, ℕ, ◌≤◌, length, drop};
ghost use Rattle.std.proofs.Math.Option.{some};
ghost use Rattle.std.proofs.Math.ListN.{get_elem?};
ghost use Rattle.program.specs.Syntax.{Function, Program};
ghost use Rattle.program.specs.Limits.{Mode};
ghost use Rattle.image.specs.Parts.{TermsAt};
ghost use Rattle.patterns.specs.Search.{patterns_overlap};
ghost use Rattle.told.specs.Numbered.{Held, sites_of};
ghost use Rattle.told.specs.Calls.{is_listed};
ghost use Rattle.cleaning.specs.Indexed.{Indexed};
ghost use Rattle.cleaning.specs.Room.{Used};
ghost use Rattle.cleaning.specs.Walks.{SomeAsked};

use index::Plan;
use index::classes::site_argument;
use overlap::patterns_verdict;
use patterns::Verdict;

// Of the pattern that stands at `pattern` of the body b and the site i of a list of plain sites.
pub fn verdict_at(b: &[u8], work: &mut [u32], plan: Plan, pattern: usize, i: usize) -> Verdict
    requires { SomeAsked b.now work.old plan pattern i × (length b.now ≤ 32768) }
    ensures answers { (w : Program) (f : ℕ) (x : Function) (y : Held) → Indexed b.now w work.old plan → get_elem? w.functions f ≡ some x → get_elem? (sites_of w) i ≡ some y → is_listed true x.name y ≡ true → (t : TermsAt Mode.pattern (drop pattern b.now)) → result ≡ patterns_overlap t.terms y.site.argument }
    ensures keeps { Used plan work.old work.new }
{
    let k = plan.calls() + i;
    let q = site_argument(b, work[k]);
    let from = plan.room();
    patterns_verdict(b, pattern, q, &mut work[from..])
}
