// The kept marks: one bit a sentence.
ghost use Rattle.std.specs.Prelude.{◌≡◌, false, List, ℕ, ◌*◌, ◌<◌, ◌≤◌, length, ltb};
ghost use Rattle.program.specs.Syntax.{Function};
ghost use Rattle.program.specs.Encode.{own_sentence_count};
ghost use Rattle.told.specs.Kept.{is_kept, kept_functions};
ghost use Rattle.output.specs.Marks.{WithoutBit, BitsBelow, NoneFrom};

// Whether the sentence i is kept; past the words of marks none is.
pub fn is_kept(marks: &[u32], i: usize) -> bool
    ensures { result ≡ is_kept marks.now i }
{
    let word = i / 32;
    if word < marks.len() {
        (marks[word] >> (i % 32)) % 2 == 1
    } else {
        false
    }
}

// The word w without its bit k.
fn without_bit(w: u32, k: usize) -> u32
    requires { k < 32 }
    ensures { WithoutBit w k result }
{
    if (w >> k) % 2 == 1 { w - (1 << k) } else { w }
}

// The sentence i is no longer kept.
pub fn clear_mark(marks: &mut [u32], i: usize)
    ensures cleared { is_kept marks.new i ≡ false }
    ensures others { (j : ℕ) → (j ≡ i → ⊥) → is_kept marks.new j ≡ is_kept marks.old j }
{
    let word = i / 32;
    if word < marks.len() {
        marks[word] = without_bit(marks[word], i % 32);
    }
}

// How many sentences are kept: the ones over the words.
pub fn count_ones(marks: &[u32]) -> usize
    requires { length marks.now ≤ 32768 }
    ensures { (fs : List Function) → NoneFrom (is_kept marks.now) (own_sentence_count fs) → result ≡ own_sentence_count (kept_functions (is_kept marks.now) 0 fs) }
{
    let mut total = 0;
    for word in marks {
        total += word.count_ones() as usize;
    }
    total
}

// The word of marks that keeps those of the sentences from `first` on that are below n.
fn word_below(n: usize, first: usize) -> u32
    ensures { BitsBelow n first result }
{
    if n <= first {
        return 0;
    }
    let k = n - first;
    if k < 32 { (1 << k) - 1 } else { 4294967295 }
}

// Every one of n sentences is kept.
pub fn keep_all(marks: &mut [u32], n: usize)
    requires { (length marks.old ≤ 32768) × (n ≤ 32 * length marks.old) }
    ensures { (i : ℕ) → is_kept marks.new i ≡ ltb i n }
{
    for (j, word) in marks.iter_mut().enumerate() {
        *word = word_below(n, 32 * j);
    }
}
