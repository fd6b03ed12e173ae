// The lists of each function's call sites, by links from site to site.
ghost use Rattle.std.specs.Prelude.{◌≡◌, Bool, List, ℕ, ◌+◌, ◌*◌, ◌<◌, ◌≤◌, length, get_or, drop};
ghost use Rattle.program.specs.Syntax.{Function};
ghost use Rattle.meaning.specs.Sites.{restriction_is_characterisable};
ghost use Rattle.restrictions.specs.Entries.{CallAt};
ghost use Rattle.told.specs.Numbered.{Held};
ghost use Rattle.index.specs.First.{FirstFrom};
ghost use Rattle.index.specs.Tables.{Apart};
ghost use Rattle.index.specs.Bucket.{is_named};
ghost use Rattle.index.specs.Tabled.{Tabled, FiledAs, SomeFiled};
ghost use Rattle.index.specs.Links.{is_plain_list, list_head, FirstsHeaded, Headed, Chained};
ghost use Rattle.index.specs.Linking.{Columns, SomeSites, Indexed, LinksOnly, Pushed};

use crate::names::{Filing, function_name};
use crate::table::{Heads, Kind, place_of};
use restrictions::{call_argument, call_name, restriction_is_characterisable};

// Puts the site i before a list of that kind: its heads stand at `head`, the site's link at `link`.
fn push_site(work: &mut [u32], head: usize, link: usize, kind: Kind, i: usize)
    requires { (head < link) × (link < length work.old) × (length work.old ≤ 32768) × (i < 8192) }
    ensures { Pushed (is_plain_list kind) work.old work.new head link i }
{
    let heads = Heads::from(work[head]);
    work[link] = heads.first(kind) as u32;
    work[head] = heads.with_first(kind, i).packed();
}

// The first function of the name that the call at p calls, if there is one.
fn callee_function(b: &[u8], work: &[u32], filing: Filing, p: usize) -> Option<usize>
    requires { SomeFiled b.now work.now filing × (length work.now ≤ 32768) × CallAt (drop p b.now) }
    ensures { (fs : List Function) → Tabled b.now work.now filing.functions fs → FiledAs fs work.now filing → (x : CallAt (drop p b.now)) → FirstFrom (is_named x.callee) 0 fs result }
{
    filing.function_named(b, work, call_name(&b[p..]))
}

// Which list of its callee the call at p belongs to.
fn list_of(b: &[u8], p: usize) -> Kind
    requires { CallAt (drop p b.now) }
    ensures { (x : CallAt (drop p b.now)) → is_plain_list result ≡ restriction_is_characterisable x.argument }
{
    let x = &b[p..];
    let a = call_argument(x);
    if restriction_is_characterisable(&x[a..]) {
        Kind::Plain
    } else {
        Kind::Other
    }
}

// Links the site i of so many, when those after it are linked.
fn link_site(
    b: &[u8],
    work: &mut [u32],
    filing: Filing,
    calls: usize,
    links: usize,
    sites: usize,
    i: usize,
)
    requires { SomeFiled b.now work.old filing × SomeSites b.now work.old calls sites × Columns work.old filing.functions calls links sites filing.at filing.buckets × (i < sites) }
    ensures linked { (fs : List Function) (held : List Held) → Indexed b.now work.old filing.functions calls sites filing.at filing.buckets fs held → FirstsHeaded fs held work.old filing.functions (i + 1) → Chained fs held work.old links (i + 1) → FirstsHeaded fs held work.new filing.functions i × Chained fs held work.new links i }
    ensures others { LinksOnly work.old work.new filing.functions links sites }
{
    let p = place_of(work, calls + i);
    if let Some(f) = callee_function(b, work, filing, p) {
        let kind = list_of(b, p);
        let h = filing.functions + f;
        let l = links + i;
        push_site(work, h, l, kind, i);
    }
}

// Links each site to its callee's list, the last first, so that the lists rise; sites of no function stay out.
pub fn link_sites(
    b: &[u8],
    work: &mut [u32],
    filing: Filing,
    calls: usize,
    links: usize,
    sites: usize,
)
    requires { SomeFiled b.now work.old filing × SomeSites b.now work.old calls sites × Columns work.old filing.functions calls links sites filing.at filing.buckets × ((kind : Bool) (f : ℕ) → f < filing.functions → list_head kind (get_or work.old (filing.functions + f) 0) ≡ sites) }
    ensures headed { (fs : List Function) (held : List Held) → Indexed b.now work.old filing.functions calls sites filing.at filing.buckets fs held → FirstsHeaded fs held work.new filing.functions 0 }
    ensures chained { (fs : List Function) (held : List Held) → Indexed b.now work.old filing.functions calls sites filing.at filing.buckets fs held → Chained fs held work.new links 0 }
    ensures others { LinksOnly work.old work.new filing.functions links sites }
{
    for i in (0..sites).rev() {
        link_site(b, work, filing, calls, links, sites, i);
    }
}

// Each later function of a name gets the heads of the first one.
pub fn share_heads(b: &[u8], work: &mut [u32], filing: Filing)
    requires { SomeFiled b.now work.old filing × (2 * filing.functions ≤ filing.at) × (length work.old ≤ 32768) }
    ensures headed { (fs : List Function) (held : List Held) → Tabled b.now work.old filing.functions fs → FiledAs fs work.old filing → FirstsHeaded fs held work.old filing.functions 0 → Headed fs held work.new filing.functions }
    ensures others { Apart work.old work.new filing.functions (2 * filing.functions) }
{
    for f in 0..filing.functions {
        let p = place_of(work, f);
        let first = filing.function_named(b, work, function_name(b, p)).unwrap();
        let k = filing.functions + first;
        let h = filing.functions + f;
        work[h] = work[k];
    }
}
