// The places of functions and sentences, found in one pass.
// Marks stay numbers, as in `image::part`.
ghost use Rattle.std.specs.Prelude.{◌≡◌, ℕ, ◌+◌, ◌<◌, ◌≤◌, length, get_or, drop};
ghost use Rattle.program.specs.Sentences.{own_sentences};
ghost use Rattle.image.specs.Parts.{FunctionsAt};
ghost use Rattle.index.specs.Tables.{FunctionsIn, SentencesIn, Apart};

use image::part::{sentence_len, sentences_start};
use restrictions::Located;

// Every entry from `from` up to `end` becomes v.
pub fn fill(work: &mut [u32], from: usize, end: usize, v: u32)
    requires { (from ≤ end) × (end ≤ length work.old) }
    ensures filled { (k : ℕ) → from ≤ k → k < end → get_or work.new k 0 ≡ v }
    ensures others { Apart work.old work.new from end }
{
    work[from..end].fill(v);
}

// Lists the functions that stand from `from` to the end of the body b, at 0 of work, and their sentences at `lines`: one walk over
// the records, whose marks say which of the two is counted.
pub fn list_functions(b: &[u8], from: usize, work: &mut [u32], lines: usize)
    requires { (length b.now ≤ 32768) × (from ≤ length b.now) × ((h : FunctionsAt (drop from b.now)) → (length h.functions ≤ lines) × (lines + length (own_sentences h.functions) ≤ length work.old)) × FunctionsAt (drop from b.now) }
    ensures functions { (h : FunctionsAt (drop from b.now)) → FunctionsIn b.now h.functions work.new 0 }
    ensures sentences { (h : FunctionsAt (drop from b.now)) → SentencesIn b.now (own_sentences h.functions) work.new lines }
    ensures fresh { (h : FunctionsAt (drop from b.now)) (s : ℕ) → s < length (own_sentences h.functions) → get_or work.new (lines + s) 0 < 32768 }
    ensures others { (h : FunctionsAt (drop from b.now)) → (length work.new ≡ length work.old) × ((k : ℕ) → lines + length (own_sentences h.functions) ≤ k → get_or work.new k 0 ≡ get_or work.old k 0) }
{
    let mut p = from;
    let mut f: usize = 0;
    let mut s: usize = 0;
    while p < b.len() {
        let m = b[p];
        if m == 18 {
            work[f] = Located {
                place: p,
                number: s,
            }
            .packed();
            f += 1;
            p += sentences_start(&b[p..]);
        } else if m == 10 {
            let k = lines + s;
            work[k] = p as u32;
            s += 1;
            p += sentence_len(&b[p..]);
        } else {
            p += 1;
        }
    }
}
