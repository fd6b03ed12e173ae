// Whether bytes can be read as an input or as answers: tokens one by one, and brackets by counting them, so that depth is free.
// Marks stay numbers, as in `image::part`.
ghost use Rattle.std.specs.Prelude.{◌≡◌, Bool, ◌&&◌, ◌+◌, ◌<◌, eqb, MatchOption};
ghost use Rattle.meaning.specs.Inputs.{input_of, answers_of};
ghost use Rattle.values.specs.Values.{is_read};
ghost use Rattle.values.specs.Counting.{depth_after, owed_after};

use crate::tokens::Token;

// Whether the mark m is a close that no bracket opened, where so many are open.
pub fn is_last_close(m: u8, depth: usize) -> bool
    ensures { result ≡ (eqb m 15 && eqb depth 0) }
{
    m == 15 && depth == 0
}

// How many brackets are open after the mark m, unless it is a close that none of them opened.
pub fn depth_after(m: u8, depth: usize) -> Option<usize>
    requires { depth < 18446744073709551615 }
    ensures { MatchOption result ((m ≡ 15) × (depth ≡ 0)) (λ d. (d ≡ depth_after m depth) × (m ≡ 15 → 0 < depth)) }
{
    match m {
        7 => Some(depth + 1),
        15 => depth.checked_sub(1),
        _ => Some(depth),
    }
}

// How many closes answers owe after the mark m: a term begins an answer, which owes one.
fn owed_after(m: u8, owed: usize) -> usize
    requires { owed + 2 < 18446744073709551616 }
    ensures { result ≡ owed_after m owed }
{
    let begun = owed.max(1);
    match m {
        7 => begun + 1,
        15 => begun - 1,
        _ => begun,
    }
}

// Whether s is an input. `answers_fit` walks alike: one walk for both would be no plainer, as its clauses had to say what either count means for the tokens left.
pub fn input_fits(s: &[u8]) -> bool
    ensures { result ≡ is_read (input_of s.now) }
{
    let mut at = 0;
    let mut depth = 0;
    while at < s.len() {
        let x = &s[at..];
        let Some(t) = Token::first(x) else {
            return false;
        };
        let Some(after) = depth_after(x[0], depth) else {
            return false;
        };
        depth = after;
        at += t.size();
    }
    depth == 0
}

// Whether s is a list of answers.
pub fn answers_fit(s: &[u8]) -> bool
    ensures { result ≡ is_read (answers_of s.now) }
{
    let mut at = 0;
    let mut owed = 0;
    while at < s.len() {
        let x = &s[at..];
        let Some(t) = Token::first(x) else {
            return false;
        };
        owed = owed_after(x[0], owed);
        at += t.size();
    }
    owed == 0
}
