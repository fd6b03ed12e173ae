// Notes of the sites, once the rounds are done: as long as one that they repeat is there, so that a site which leads is
// told by its own entries. A list is walked once for each function that it belongs to.
// A list of sites goes from entry to entry of the lent memory: no range knows which.
ghost use Rattle.std.specs.Prelude.{◌≡◌, ◌||◌, List, ℕ, ◌+◌, ◌<◌, ◌≤◌, length, get_or};
ghost use Rattle.std.proofs.Math.Option.{some};
ghost use Rattle.std.proofs.Math.ListN.{get_elem?};
ghost use Rattle.program.specs.Syntax.{Function, Program};
ghost use Rattle.told.specs.Numbered.{sites_of};
ghost use Rattle.restrictions.specs.Entries.{entry_sentence};
ghost use Rattle.index.specs.Layout.{calls, links, room, Reaches};
ghost use Rattle.index.specs.Links.{entry_class};
ghost use Rattle.cleaning.specs.Indexed.{Indexed, SomeBody, fell_of};
ghost use Rattle.report.specs.Notes.{stands_in, NotedSite, NotedList, OnlyNotes, NotesWritten};

use cleaning::walks::fell;
use index::Plan;
use index::table::{Kind, class_of, head_site, next_site, sentence_of};

// The round in which the later of two fell, 0 for never, as the entries of the fixed memory have it.
fn later(a: u32, b: u32) -> u32
    ensures { (r : ℕ) → stands_in result r ≡ (stands_in a r || stands_in b r) }
{
    if a == 0 || b == 0 { 0 } else { a.max(b) }
}

// Notes the site i of a list whose earlier sites are noted. What all of its class have is kept at the first of them.
fn note_site(work: &mut [u32], plan: Plan, i: usize)
    requires { (i < plan.sites) × (entry_sentence (get_or work.old (calls plan + i) 0) < plan.sentences) × Reaches (room plan) work.old }
    ensures { NotedSite plan work.old work.new i (entry_class (get_or work.old (links plan + i) 0)) (fell_of plan work.old (entry_sentence (get_or work.old (calls plan + i) 0))) }
{
    let s = sentence_of(work, plan.calls(), i);
    let k = fell(work, plan, s).unwrap_or(0) as u32;
    let c = class_of(work, plan.links(), i);
    let notes = plan.notes();
    let own = notes + i;
    if i <= c {
        work[own] = k;
        return;
    }
    let first = notes + c;
    let v = work[first];
    work[own] = v;
    work[first] = later(v, k);
}

// Notes the sites of the f-th function.
fn note_list(work: &mut [u32], plan: Plan, f: usize)
    requires { SomeBody work.old plan × (f < plan.functions) }
    ensures { (b : List ℕ) (w : Program) (x : Function) → Indexed b w work.old plan → get_elem? w.functions f ≡ some x → NotedList x.name (sites_of w) work.new plan × OnlyNotes x.name (sites_of w) work.old work.new plan }
{
    let links = plan.links();
    let mut i = head_site(work, plan.functions, f, Kind::Plain);
    while i < plan.sites {
        note_site(work, plan, i);
        i = next_site(work, links, i);
    }
}

// Notes the sites of every function.
pub fn note_repeats(work: &mut [u32], plan: Plan)
    requires { SomeBody work.old plan }
    ensures { (b : List ℕ) (w : Program) → Indexed b w work.old plan → NotesWritten w work.old work.new plan plan.functions }
{
    for f in 0..plan.functions {
        note_list(work, plan, f);
    }
}
