// The two sentences that Overlap compares: where they stand in an accepted image, and their comparison.
ghost use Rattle.std.specs.Prelude.{◌≡◌, ◌≤◌, length, drop, Ok, MatchResult};
ghost use Rattle.program.specs.Sentences.{own_sentences};
ghost use Rattle.image.specs.Parts.{FunctionsAt};
ghost use Rattle.answers.specs.Answers.{compare_patterns};
ghost use Rattle.cleaner.specs.Parts.{PatternFrom};
ghost use Rattle.cleaner.specs.Two.{Finds, TwoFound, NotFound};

use answers::Comparison;
use image::part::{functions_start, sentence_at};
use overlap::patterns_overlap;
use program::Refusal;
use reader::check::check;

// The sentence after `number` of the functions from `from` on, or 13: a sentence number not below the sentence count.
fn find_sentence(b: &[u8], from: usize, number: usize) -> Result<usize, Refusal>
    requires { (from ≤ length b.now) × FunctionsAt (drop from b.now) }
    ensures { (h : FunctionsAt (drop from b.now)) → Finds b.now (own_sentences h.functions) number result }
{
    match sentence_at(b, from, number) {
        Some(p) => Ok(p),
        None => Refusal::at(13, 0),
    }
}

// Where the sentences of these numbers stand in the body of an accepted image.
pub fn find_two(img: &[u8], first: usize, second: usize) -> Result<(usize, usize), Refusal>
    ensures { MatchResult result (λ x. TwoFound img.now first second x.0 x.1) (λ f. NotFound img.now first second f) }
{
    check(img)?;
    let n = img.len() - 12;
    let b = &img[..n];
    let from = functions_start(img);
    let i = find_sentence(b, from, first)?;
    let j = find_sentence(b, from, second)?;
    Ok((i, j))
}

// The sentences at i and j of a body b, by their patterns. The search has entries of its own: two for each term of any two
// sentences, and three for each term of one against itself, of which a body has 3,273 at most.
pub fn compare(b: &[u8], i: usize, j: usize) -> Comparison
    requires { PatternFrom b.now i × PatternFrom b.now j × (length b.now ≤ 32768) }
    ensures { (x : PatternFrom b.now i) (y : PatternFrom b.now j) → Ok result ≡ compare_patterns x.terms y.terms }
{
    let p = i + 9;
    let q = j + 9;
    let mut room = [0u32; 9920];
    let f = patterns_overlap(b, p, q, &mut room);
    Comparison {
        verdict: f.verdict,
        spent: 4096 - f.fuel,
    }
}
