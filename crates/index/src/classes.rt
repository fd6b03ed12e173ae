// Classes of repeats among the plain sites of one function.
ghost use Rattle.std.specs.Prelude.{◌≡◌, List, ◌+◌, ◌*◌, ◌/◌, ◌%◌, ◌<◌, ◌≤◌, length, drop};
ghost use Rattle.program.specs.Syntax.{Name};
ghost use Rattle.program.specs.Encode.{put_terms};
ghost use Rattle.told.specs.Numbered.{Held};
ghost use Rattle.restrictions.specs.Entries.{CallAt, entry_offset};
ghost use Rattle.index.specs.First.{First};
ghost use Rattle.index.specs.Links.{is_repeat, Classed};
ghost use Rattle.index.specs.Lists.{ListAt, SomeListAt, Among, SomeAmong, OnlyClasses};

use crate::table::{Link, next_site};
use configuration::same_configuration;
use restrictions::{Located, call_argument};

// Where the argument of the site with that entry begins in the body b.
pub fn site_argument(b: &[u8], entry: u32) -> usize
    requires { CallAt (drop (entry_offset entry) b.now) }
    ensures { (result ≤ length b.now) × ((x : CallAt (drop (entry_offset entry) b.now)) → drop result b.now ≡ put_terms x.argument x.rest) }
{
    let p = Located::from(entry).place;
    p + call_argument(&b[p..])
}

// The first site of the list from `head` on that the site i repeats, itself at the latest.
fn first_alike(
    b: &[u8],
    work: &[u32],
    calls: usize,
    links: usize,
    n: usize,
    head: usize,
    i: usize,
) -> usize
    requires { SomeAmong b.now work.now calls links n head i × (length work.now ≤ 32768) }
    ensures { (f : Name) (sites : List Held) (y : Held) → ListAt b.now work.now calls links n head f sites → Among f sites i y → First (is_repeat f y) 0 sites result }
{
    let own = calls + i;
    let q = site_argument(b, work[own]);
    let mut j = head;
    // The list goes from entry to entry of the lent memory, and ends at the site itself.
    while j < i {
        let k = calls + j;
        let p = site_argument(b, work[k]);
        if same_configuration(&b[p..], &b[q..]) {
            return j;
        }
        j = next_site(work, links, j);
    }
    j
}

// Each site of the list from `head` on joins the class of the first that it repeats.
pub fn class_list(b: &[u8], work: &mut [u32], calls: usize, links: usize, n: usize, head: usize)
    requires { SomeListAt b.now work.old calls links n head × (length work.old ≤ 32768) × (n ≤ 8191) × (calls + n ≤ links) }
    ensures classed { (f : Name) (sites : List Held) → ListAt b.now work.old calls links n head f sites → Classed f sites work.new links }
    ensures others { (f : Name) (sites : List Held) → ListAt b.now work.old calls links n head f sites → OnlyClasses f sites work.old work.new links }
{
    let mut i = head;
    // The list goes from entry to entry of the lent memory, which is written on the way.
    while i < n {
        let c = first_alike(b, work, calls, links, n, head, i);
        let l = links + i;
        let next = next_site(work, links, i);
        work[l] = Link { next, class: c }.packed();
        i = next;
    }
}
