// Reading the entries of work.
ghost use Rattle.std.specs.Prelude.{◌≡◌, true, false, ◌+◌, ◌%◌, ◌<◌, length, get_or};
ghost use Rattle.restrictions.specs.Entries.{entry_sentence};
ghost use Rattle.index.specs.Links.{is_plain_list, first_of, with_first, list_head, entry_next, entry_class};

use restrictions::Located;

// A function's two lists of sites: those whose argument has no call and no block, and the others.
#[derive(Clone, Copy, Debug, PartialEq, Eq)]
pub enum Kind {
    Plain,
    Other,
}

// What a function's entry of heads holds: the first site of each list, 13 bits, the plain one's below.
#[derive(Clone, Copy, Debug, PartialEq, Eq)]
pub struct Heads {
    pub plain: usize,
    pub other: usize,
}

impl From<u32> for Heads {
    fn from(e: u32) -> Heads
        ensures { (result.plain ≡ list_head true e) × (result.other ≡ list_head false e) × (result.plain < 8192) × (result.other < 524288) }
    {
        Heads {
            plain: (e % 8192) as usize,
            other: (e / 8192) as usize,
        }
    }
}

impl Heads {
    // The first site of that list.
    pub fn first(self, kind: Kind) -> usize
        ensures { result ≡ first_of kind self }
    {
        match kind {
            Kind::Plain => self.plain,
            Kind::Other => self.other,
        }
    }

    // The same with the site i as the first of that list.
    pub fn with_first(self, kind: Kind, i: usize) -> Heads
        ensures { result ≡ with_first kind self i }
    {
        match kind {
            Kind::Plain => Heads { plain: i, ..self },
            Kind::Other => Heads { other: i, ..self },
        }
    }

    // Both in one entry.
    pub fn packed(self) -> u32
        requires { (self.plain < 8192) × (self.other < 524288) }
        ensures { (list_head true result ≡ self.plain) × (list_head false result ≡ self.other) }
    {
        self.plain as u32 + 8192 * self.other as u32
    }
}

// What a site's entry of links holds: the next of its list, 13 bits, and the first of its class above.
#[derive(Clone, Copy, Debug, PartialEq, Eq)]
pub struct Link {
    pub next: usize,
    pub class: usize,
}

impl From<u32> for Link {
    fn from(e: u32) -> Link
        ensures { (result.next ≡ entry_next e) × (result.class ≡ entry_class e) × (result.class < 524288) }
    {
        Link {
            next: (e % 8192) as usize,
            class: (e / 8192) as usize,
        }
    }
}

impl Link {
    // Both in one entry.
    pub fn packed(self) -> u32
        requires { (self.next < 8192) × (self.class < 524288) }
        ensures { (entry_next result ≡ self.next) × (entry_class result ≡ self.class) }
    {
        self.next as u32 + 8192 * self.class as u32
    }
}

// The next of its list after the site i; links stand from `links` on.
pub fn next_site(work: &[u32], links: usize, i: usize) -> usize
    requires { links + i < length work.now }
    ensures { (result ≡ entry_next (get_or work.now (links + i) 0)) × (result < 8192) }
{
    let l = links + i;
    Link::from(work[l]).next
}

// The first of the class of the site i.
pub fn class_of(work: &[u32], links: usize, i: usize) -> usize
    requires { links + i < length work.now }
    ensures { (result ≡ entry_class (get_or work.now (links + i) 0)) × (result < 524288) }
{
    let l = links + i;
    Link::from(work[l]).class
}

// The first site of that list of the function f; heads stand from `heads` on.
pub fn head_site(work: &[u32], heads: usize, f: usize, kind: Kind) -> usize
    requires { heads + f < length work.now }
    ensures { (result ≡ list_head (is_plain_list kind) (get_or work.now (heads + f) 0)) × (result < 524288) }
{
    let h = heads + f;
    Heads::from(work[h]).first(kind)
}

// Where the record stands that the entry k names.
pub fn place_of(work: &[u32], k: usize) -> usize
    requires { k < length work.now }
    ensures { (result ≡ get_or work.now k 0 % 32768) × (result < 32768) }
{
    Located::from(work[k]).place
}

// The number of the sentence that holds the site i; sites stand from `calls` on.
pub fn sentence_of(work: &[u32], calls: usize, i: usize) -> usize
    requires { calls + i < length work.now }
    ensures { (result ≡ entry_sentence (get_or work.now (calls + i) 0)) × (result < 4096) }
{
    let k = calls + i;
    Located::from(work[k]).number
}
