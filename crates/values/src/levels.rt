// Expressions at the start of a slice, up to its end or to a close that none of their brackets opened.
// The walks go from token to token, each as long as its bytes say, which no chain of the library's is plainer for.
// Marks stay numbers, as in `image::part`.
ghost use Rattle.std.specs.Prelude.{◌≡◌, [], ◌+◌, ◌≤◌, length};
ghost use Rattle.patterns.specs.Expression.{void};
ghost use Rattle.patterns.specs.Marks.{put_expression};
ghost use Rattle.meaning.specs.Match.{same_expression};
ghost use Rattle.meaning.specs.Records.{bytes_of};
ghost use Rattle.meaning.proofs.Fronts.{rest_after};
ghost use Rattle.text.specs.Fill.{Emitted, limit};
ghost use Rattle.values.specs.Values.{ValueAt, LevelAt, Ends, rest_of, FrontOf};

use crate::read::depth_after;
use crate::tokens::Token;

// How many bytes the expression has, with zero spans or any others.
pub fn value_len(s: &[u8]) -> usize
    requires { LevelAt s.now }
    ensures { (v : LevelAt s.now) → Ends s.now v.level v.behind result }
{
    let mut at: usize = 0;
    let mut depth: usize = 0;
    while at < s.len() {
        let x = &s[at..];
        let Some(after) = depth_after(x[0], depth) else {
            return at;
        };
        depth = after;
        at += Token { bytes: x }.size();
    }
    at
}

// The expression with zero spans. It walks as `value_len` does: one walk for both would be no plainer, since only this one lends the bytes that it writes.
pub fn put_value(out: &mut [u8], at: usize, s: &[u8]) -> usize
    requires { LevelAt s.now × (at + length s.now ≤ limit) }
    ensures { (v : LevelAt s.now) → Emitted out.old at (put_expression v.level []) result out.new }
{
    let mut i: usize = 0;
    let mut depth: usize = 0;
    while i < s.len() {
        let x = &s[i..];
        let Some(after) = depth_after(x[0], depth) else {
            return at + i;
        };
        depth = after;
        let t = Token { bytes: x };
        t.put(out, at + i);
        i += t.size();
    }
    at + i
}

// How many bytes the first term has: there is one.
pub fn term_end(s: &[u8]) -> usize
    requires { (v : LevelAt s.now) × (v.level ≡ void → ⊥) }
    ensures { (v : LevelAt s.now) → result + bytes_of (rest_of v.level) ≡ bytes_of v.level }
{
    if s[0] == 7 {
        return 10 + value_len(&s[9..]);
    }
    Token { bytes: s }.size()
}

// Where the terms of b that equal the whole of a end, if b begins with such.
pub fn same_front(a: &[u8], b: &[u8]) -> Option<usize>
    requires { ValueAt a.now × LevelAt b.now }
    ensures { (u : ValueAt a.now) (v : LevelAt b.now) → FrontOf v.level (rest_after u.expression v.level) result }
{
    let mut i: usize = 0;
    let mut j: usize = 0;
    while i < a.len() {
        if b.len() <= j {
            return None;
        }
        let x = Token { bytes: &a[i..] };
        let y = Token { bytes: &b[j..] };
        if !x.same(y) {
            return None;
        }
        i += x.size();
        j += y.size();
    }
    Some(j)
}

// Whether two expressions are the same.
pub fn same_values(a: &[u8], b: &[u8]) -> bool
    requires { ValueAt a.now × ValueAt b.now }
    ensures { (u : ValueAt a.now) (v : ValueAt b.now) → result ≡ same_expression u.expression v.expression }
{
    same_front(a, b) == Some(b.len())
}
