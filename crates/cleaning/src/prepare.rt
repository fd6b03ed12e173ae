// Work filled from a body: what no round can change.
ghost use Rattle.std.specs.Prelude.{◌≡◌, false, List, ℕ, ◌+◌, ◌<◌, ◌≤◌, length};
ghost use Rattle.std.proofs.Math.Option.{some};
ghost use Rattle.std.proofs.Math.ListN.{get_elem?};
ghost use Rattle.program.specs.Syntax.{Function, Program};
ghost use Rattle.program.specs.Sentences.{own_sentences};
ghost use Rattle.index.specs.Tabled.{Tabled, FiledAs, SomeFiled};
ghost use Rattle.cleaning.specs.Prepared.{BodyOf, SomeProgram, ProgramListed, SomeListing, Chains, SomeChains, ListsKept, ClassesWritten, Earlier, SomeClassing, ProgramLinked};

use index::Plan;
use index::classes::class_list;
use index::links::{link_sites, share_heads};
use index::listing::{fill, list_functions};
use index::names::{Filing, function_name};
use index::table::{Heads, Kind, head_site, place_of};
use restrictions::program_sites;

// Lists the functions, the sentences and the sites of the program whose functions stand from `from` on; how many sites.
pub fn list_program(
    b: &[u8],
    from: usize,
    work: &mut [u32],
    functions: usize,
    sentences: usize,
) -> usize
    requires { SomeProgram b.now from work.old functions sentences }
    ensures { (w : Program) → BodyOf b.now from w → length w.functions ≡ functions → length (own_sentences w.functions) ≡ sentences → ProgramListed b.now w work.new (record { functions = functions; sentences = sentences; sites = result }) × (length work.new ≡ length work.old) }
{
    let end = work.len();
    fill(work, 0, end, 0);
    list_functions(b, from, work, 2 * functions);
    let calls = 2 * functions + 2 * sentences + (sentences + 31) / 32;
    program_sites(b, from, &mut work[calls..], 0)
}

// Whether no earlier function has the name of the f-th; the functions are filed.
fn is_first(b: &[u8], work: &[u32], filing: Filing, f: usize) -> bool
    requires { SomeFiled b.now work.now filing × (length work.now ≤ 32768) × (f < filing.functions) }
    ensures { (fs : List Function) (x : Function) → Tabled b.now work.now filing.functions fs → FiledAs fs work.now filing → get_elem? fs f ≡ some x → result ≡ false → Earlier fs f x }
{
    let p = place_of(work, f);
    filing.function_named(b, work, function_name(b, p)) == Some(f)
}

// Classes of repeats in the list of the f-th function. A later function of a name has the list of the first, which is classed.
fn class_function(b: &[u8], work: &mut [u32], plan: Plan, f: usize)
    requires { SomeClassing b.now work.old plan f }
    ensures { (w : Program) (old : List ℕ) → Chains b.now w old plan → ClassesWritten w old work.old plan f → ClassesWritten w old work.new plan (f + 1) }
{
    let calls = plan.calls();
    let links = plan.links();
    let at = links + plan.sites;
    let filing = Filing {
        functions: plan.functions,
        at,
        buckets: work.len() - at - plan.functions,
    };
    if is_first(b, work, filing, f) {
        let head = head_site(work, plan.functions, f, Kind::Plain);
        class_list(b, work, calls, links, plan.sites, head);
    }
}

// The same for every function.
fn class_sites(b: &[u8], work: &mut [u32], plan: Plan)
    requires { SomeChains b.now work.old plan }
    ensures { (w : Program) → Chains b.now w work.old plan → ClassesWritten w work.old work.new plan plan.functions }
{
    for f in 0..plan.functions {
        class_function(b, work, plan, f);
    }
}

// Links the sites to their callees. The functions are filed in the room behind the sites.
fn link_lists(b: &[u8], work: &mut [u32], plan: Plan)
    requires { SomeListing b.now work.old plan }
    ensures { (w : Program) → ProgramListed b.now w work.old plan → Chains b.now w work.new plan × ListsKept work.old work.new plan }
{
    let functions = plan.functions;
    let sites = plan.sites;
    let calls = plan.calls();
    let links = calls + sites;
    let at = links + sites;
    let top = at + functions;
    let end = work.len();
    fill(work, top, end, functions as u32);
    let filing = Filing {
        functions,
        at,
        buckets: end - top,
    };
    filing.file_functions(b, work);
    let none = Heads {
        plain: sites,
        other: sites,
    };
    fill(work, functions, 2 * functions, none.packed());
    link_sites(b, work, filing, calls, links, sites);
    share_heads(b, work, filing);
}

// Links the sites to their callees, and classes the repeats.
pub fn link_program(b: &[u8], work: &mut [u32], plan: Plan)
    requires { SomeListing b.now work.old plan }
    ensures { (w : Program) → ProgramListed b.now w work.old plan → ProgramLinked b.now w work.new plan × (length work.new ≡ length work.old) }
{
    link_lists(b, work, plan);
    class_sites(b, work, plan);
}
