// Call sites and the restrictions that they make, on an image's own bytes.
// That a body has at most 32,768 bytes is a clause of each function that is lent one.
// Marks stay numbers, as in `image::part`.
#![tactic(auto)]

ghost use Rattle.std.specs.Prelude.{◌≡◌, List, ℕ, ◌+◌, ◌<◌, ◌≤◌, length, drop, Some, None};
ghost use Rattle.program.specs.Encode.{put_terms};
ghost use Rattle.program.specs.Limits.{Mode};
ghost use Rattle.image.specs.Parts.{Passes, TermsAt, SentenceAt, FunctionsAt};
ghost use Rattle.program.specs.Sentences.{own_sentences};
ghost use Rattle.meaning.specs.Sites.{restriction_is_characterisable};
ghost use Rattle.restrictions.specs.Entries.{CallAt, entry_offset, entry_sentence, Appended};
ghost use Rattle.restrictions.specs.Records.{RecordsAt, RoomFor, Collected};
ghost use Rattle.told.specs.Numbered.{held_sites};
ghost use Rattle.restrictions.specs.Numbered.{RoomForSentence, RoomForFunctions, SentenceCollected};

use image::part::{conditions_start, name_part, result_start, sentences_start, term_len};

// Whether the terms up to the close have no call and no block; the closes still to come are counted.
pub fn restriction_is_characterisable(s: &[u8]) -> bool
    requires { TermsAt Mode.result s.now }
    ensures { (t : TermsAt Mode.result s.now) → result ≡ restriction_is_characterisable t.terms }
{
    let mut i: usize = 0;
    let mut closes: usize = 1;
    loop {
        let x = &s[i..];
        let m = x[0];
        match m {
            7 => {
                closes += 1;
                i += 9;
            }
            8 | 9 => {
                return false;
            }
            15 => {
                if closes == 1 {
                    return true;
                }
                closes -= 1;
                i += 1;
            }
            _ => {
                i += term_len(x);
            }
        }
    }
}

// The name of the function that the call at the start of s calls, as a part of s.
pub fn call_name(s: &[u8]) -> &[u8]
    requires { CallAt s.now }
    ensures { (x : CallAt s.now) → result.now ≡ x.callee }
{
    name_part(&s[9..])
}

// Where the argument of the call at the start of s begins.
pub fn call_argument(s: &[u8]) -> usize
    requires { CallAt s.now }
    ensures { (x : CallAt s.now) → Passes s.now result (put_terms x.argument x.rest) }
{
    10 + s[9] as usize
}

// What an entry holds: the place of a record, 15 bits of it, and a number, 12 bits above: of a site its sentence, of a
// function its first sentence, of a sentence the round in which it fell.
#[derive(Clone, Copy, Debug, PartialEq, Eq)]
pub struct Located {
    pub place: usize,
    pub number: usize,
}

impl From<u32> for Located {
    fn from(e: u32) -> Located
        ensures { (result.place ≡ entry_offset e) × (result.number ≡ entry_sentence e) }
    {
        Located {
            place: (e % 32768) as usize,
            number: (e / 32768 % 4096) as usize,
        }
    }
}

impl Located {
    // Both in one entry.
    pub fn packed(self) -> u32
        requires { (self.place < 32768) × (self.number < 4096) }
        ensures { (entry_offset result ≡ self.place) × (entry_sentence result ≡ self.number) }
    {
        self.place as u32 + 32768 * self.number as u32
    }
}

// The place past a walk's records, in the bytes that it was given, and how many sites are listed by then.
#[derive(Clone, Copy)]
pub struct Walk {
    pub at: usize,
    pub count: usize,
}

// How many lists of records the mark m of a bracket, a block or a condition opens.
fn opened(m: u8) -> usize
    ensures { ((m ≡ 7) → result ≡ 1) × ((m ≡ 7 → ⊥) → result ≡ 2) }
{
    if m == 7 { 1 } else { 2 }
}

// Where a sentence goes on after its conditions: at p, past its result, if m closes that, and nowhere if it closes them.
fn after_conditions(m: u8, p: usize) -> Option<usize>
    ensures { ((m ≡ 15) → result ≡ Some p) × ((m ≡ 15 → ⊥) → result ≡ None) }
{
    if m == 15 { Some(p) } else { None }
}

// Lists the sites of the records at the start of a part, up to their close, after n others: an outer call before those in
// its argument, a sentence's result before its conditions, none of a pattern. The part stands at `at` of the body. A list
// inside is a part of this one, and `lists` of them begin at i; an empty one has only its close. In a sentence, `next` is
// where its result or conditions lead.
fn collect_call_sites(part: &[u8], at: usize, sentence: usize, sites: &mut [u32], n: usize) -> Walk
    requires { (at + length part.now ≤ 32768) × (sentence < 4096) × RoomFor part.now n (length sites.old) }
    ensures { (b : List ℕ) (r : RecordsAt part.now) → drop at b ≡ part.now → Collected b part.now sentence sites.old n sites.new result r }
{
    let mut i: usize = 0;
    let mut k = n;
    let mut lists: usize = 0;
    let mut next: Option<usize> = None;
    loop {
        let x = &part[i..];
        let m = x[0];
        if 0 < lists {
            lists -= 1;
            if m == 15 {
                i += 1;
            } else {
                let w = collect_call_sites(x, at + i, sentence, sites, k);
                i += w.at;
                k = w.count;
            }
        } else if m < 7 {
            i += term_len(x);
        } else if m == 8 {
            let place = at + i;
            sites[k] = Located {
                place,
                number: sentence,
            }
            .packed();
            k += 1;
            i += call_argument(x);
            lists = 1;
        } else if m == 10 {
            next = Some(i + conditions_start(x));
            i += result_start(x);
        } else if m < 12 {
            i += 9;
            lists = opened(m);
        } else if let Some(p) = next {
            next = after_conditions(m, i + 1);
            i = p;
        } else {
            i += 1;
            return Walk { at: i, count: k };
        }
    }
}

// The same of the sentence at `at`: its result before its conditions.
pub fn sentence_sites(b: &[u8], at: usize, sentence: usize, sites: &mut [u32], n: usize) -> Walk
    requires { (length b.now ≤ 32768) × (sentence < 4096) × RoomForSentence b.now at n (length sites.old) }
    ensures { (x : SentenceAt (drop at b.now)) → SentenceCollected b.now at sentence sites.old n sites.new result x }
{
    let x = &b[at..];
    let i = at + result_start(x);
    let j = at + conditions_start(x);
    let a = collect_call_sites(&b[i..], i, sentence, sites, n);
    let w = collect_call_sites(&b[j..], j, sentence, sites, a.count);
    Walk {
        at: i + a.at,
        count: w.count,
    }
}

// The same of all functions, which stand from `from` to the end of the body b; their sentences are numbered as they come.
// It is one walk over the records, whose marks say which of them is a sentence that is counted, so that no range or
// iterator knows how many there are.
pub fn program_sites(b: &[u8], from: usize, sites: &mut [u32], n: usize) -> usize
    requires { (length b.now ≤ 32768) × (from ≤ length b.now) × RoomForFunctions b.now from n (length sites.old) }
    ensures { (h : FunctionsAt (drop from b.now)) → Appended b.now sites.old n result sites.new (held_sites 0 (own_sentences h.functions)) }
{
    let mut p = from;
    let mut sentence: usize = 0;
    let mut k = n;
    while p < b.len() {
        let m = b[p];
        if m == 18 {
            p += sentences_start(&b[p..]);
        } else if m == 10 {
            let w = sentence_sites(b, p, sentence, sites, k);
            p = w.at;
            k = w.count;
            sentence += 1;
        } else {
            p += 1;
        }
    }
    k
}
