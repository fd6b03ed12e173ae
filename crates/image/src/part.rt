// Parts of an image: how long a record is, where its parts stand, and the way from one record to the next.
// What stands at a place is a clause (`TermsAt`, `SentenceAt`, `Accepted`, ..), here and above, and no ghost field: it holds what was
// read, which contracts hand on, and a ghost field holds propositions alone: truncated to one it would not give that. That a place is no further than the end is of two
// parameters.
// Marks stay numbers, as the definition of the bytes writes them: the arms are ranges of them, and an enum would be made of a byte only to be matched once.
ghost use Rattle.std.specs.Prelude.{◌≡◌, ◌∷◌, suc, ◌+◌, ◌-◌, ◌*◌, ◌<◌, ◌≤◌, min, length, get_or, take, drop};
ghost use Rattle.program.specs.Encode.{put_terms, put_conditions, put_sentences, put_functions, own_sentence_count};
ghost use Rattle.program.specs.Limits.{Mode};
ghost use Rattle.program.specs.Decode.{body_length};
ghost use Rattle.image.specs.Skip.{owed, fields, pass};
ghost use Rattle.image.specs.Parts.{Passes, NameAt, TermsAt, tail, SentenceAt, FunctionAt, FunctionsAt, FoundIn, Accepted, token_length, closes_after};
ghost use Rattle.program.specs.Sentences.{own_sentences};

use crate::number::{read16, read32};

// The byte at i, 0 past the end, as the definition of the bytes has it: each caller adds it to a length, and would make 0 of a `None`.
fn byte_or(s: &[u8], i: usize) -> usize
    ensures { (result ≡ get_or s.now i 0) × (result < 256) }
{
    s.get(i).map_or(0, |b| usize::from(*b))
}

// How many bytes belong to the mark at p.
#[tactic(auto, using(std::proofs::lemmas::Bool::Decides::nat_tests), unfolding(crate::specs::Skip::fields))]
fn fields_of(s: &[u8], p: usize) -> usize
    requires { p < length s.now }
    ensures { (result ≡ fields (get_or s.now p 0) (drop (suc p) s.now)) × (result < 512) }
{
    match s[p] {
        1 => 12,
        2..=6 | 8 => 9 + byte_or(s, p + 9),
        7 | 9..=11 => 8,
        _ => 0,
    }
}

// How many closes are owed after the mark m.
#[tactic(auto, using(std::proofs::lemmas::Bool::Decides::nat_tests), unfolding(crate::specs::Skip::owed))]
fn owed_after(m: u8, need: usize) -> usize
    requires { (0 < need) × (need < 18446744073709551614) }
    ensures { (result ≡ owed m (need - 1)) × (result ≤ need + 2) }
{
    match m {
        7 | 8 => need + 1,
        9..=11 => need + 2,
        15 => need - 1,
        _ => need,
    }
}

// Past so many closes that are owed, from `at` on. A call from each place, so that `term_len` stays short.
#[inline(never)]
fn past(s: &[u8], at: usize, owing: usize) -> usize
    requires { (at ≤ length s.now) × (owing ≤ 1 + 2 * at) }
    ensures { (drop result s.now ≡ pass owing (drop at s.now)) × ((at ≤ result) × (result ≤ length s.now)) }
{
    let mut p = at;
    let mut need: usize = owing;
    while need != 0 && p < s.len() {
        let w = fields_of(s, p);
        need = owed_after(s[p], need);
        p = s.len().min(p + 1 + w);
    }
    p
}

// The length of the terms at the start of s, with their close.
pub fn terms_len(s: &[u8]) -> usize
    ensures { (m : Mode) (t : TermsAt m s.now) → Passes s.now result t.rest }
{
    past(s, 0, 1)
}

// The length of the first of the terms at the start of s, 0 at their close. Inlined: a walk over terms whose mark is known then adds
// a length, and as calls of this such walks take up to three times the instructions.
#[inline(always)]
pub fn term_len(s: &[u8]) -> usize
    requires { TermsAt Mode.result s.now }
    ensures { (m : Mode) (t : TermsAt m s.now) → Passes s.now result (put_terms (tail t.terms) t.rest) }
{
    match s[0] {
        1 => 13,
        m if m < 7 => 10 + usize::from(s[9]),
        15 => 0,
        m => {
            let w = fields_of(s, 0);
            let need = owed_after(m, 1) - 1;
            past(s, 1 + w, need)
        }
    }
}

// How many bytes the token at the start of s has: a symbol, a variable, a bracket's beginning or a close.
#[tactic(auto, using(std::proofs::lemmas::Bool::Decides::nat_tests), unfolding(crate::specs::Parts::token_length))]
pub fn token_len(s: &[u8]) -> usize
    requires { (0 < length s.now) × (token_length s.now ≤ length s.now) }
    ensures { result ≡ token_length s.now }
{
    match s[0] {
        1 => 13,
        ..=6 => 10 + usize::from(s[9]),
        7 => 9,
        _ => 1,
    }
}

// How many closes are to come behind a token with the mark m.
#[tactic(auto, using(std::proofs::lemmas::Bool::Decides::nat_tests), unfolding(crate::specs::Parts::closes_after))]
pub fn closes_after(m: u8, closes: usize) -> usize
    requires { (0 < closes) × (closes < 18446744073709551615) }
    ensures { result ≡ closes_after m closes }
{
    match m {
        7 => closes + 1,
        15 => closes - 1,
        _ => closes,
    }
}

// The name at the start of s, as a part of s.
pub fn name_part(s: &[u8]) -> &[u8]
    requires { NameAt s.now }
    ensures { (n : NameAt s.now) → result.now ≡ n.name }
{
    let upto = 1 + byte_or(s, 0);
    &s[1..upto]
}

// Where the conditions of the sentence at the start of s begin; its pattern begins at 9.
pub fn conditions_start(s: &[u8]) -> usize
    requires { SentenceAt s.now }
    ensures { (x : SentenceAt s.now) → Passes s.now result (put_conditions x.sentence.conditions (12 ∷ put_terms x.sentence.result x.rest)) }
{
    past(s, 9, 1)
}

// The length of the sentence at the start of s.
pub fn sentence_len(s: &[u8]) -> usize
    requires { SentenceAt s.now }
    ensures { (x : SentenceAt s.now) → Passes s.now result x.rest }
{
    past(s, 9, 2)
}

// Where the result of the sentence at the start of s begins, past its mark.
pub fn result_start(s: &[u8]) -> usize
    requires { SentenceAt s.now }
    ensures { (x : SentenceAt s.now) → Passes s.now result (put_terms x.sentence.result x.rest) }
{
    let mut p = conditions_start(s);
    while s[p] == 11 {
        p = past(s, p + 9, 2);
    }
    p + 1
}

// Where the sentences of the function at the start of s begin; its name begins at 10.
pub fn sentences_start(s: &[u8]) -> usize
    requires { FunctionAt s.now }
    ensures { (f : FunctionAt s.now) → Passes s.now result (put_sentences f.function.sentences f.rest) }
{
    11 + byte_or(s, 10)
}

// The sentence after `number` of the functions that stand from `from` to the end of the body b: one walk over the records, of which
// sentences alone are counted.
pub fn sentence_at(b: &[u8], from: usize, number: usize) -> Option<usize>
    requires { (from ≤ length b.now) × FunctionsAt (drop from b.now) }
    ensures { (h : FunctionsAt (drop from b.now)) → FoundIn b.now (own_sentences h.functions) number result }
{
    let mut p = from;
    let mut left = number;
    while p < b.len() {
        match b[p] {
            18 => p = p + 11 + byte_or(b, p + 10),
            10 if left == 0 => return Some(p),
            10 => {
                left -= 1;
                p = past(b, p + 9, 2);
            }
            _ => p += 1,
        }
    }
    None
}

// Where the functions begin in the body of an accepted image.
pub fn functions_start(img: &[u8]) -> usize
    requires { Accepted img.now }
    ensures { (result ≤ body_length img.now) × ((a : Accepted img.now) → drop result (take (body_length img.now) img.now) ≡ put_functions a.program.functions) }
{
    let n = img.len() - 12;
    // A cast, here and below, since usize has no From<u32>.
    n - read32(img, n + 4) as usize
}

// How many functions an accepted image has.
pub fn function_count(img: &[u8]) -> usize
    requires { Accepted img.now }
    ensures { (a : Accepted img.now) → result ≡ length a.program.functions }
{
    read16(img, img.len() - 4) as usize
}

// How many sentences the functions of an accepted image have of their own.
pub fn sentence_count(img: &[u8]) -> usize
    requires { Accepted img.now }
    ensures { (a : Accepted img.now) → result ≡ own_sentence_count a.program.functions }
{
    read16(img, img.len() - 2) as usize
}
