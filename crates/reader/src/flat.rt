// Passing over flat terms, closes and declared names, which push nothing and count for nothing.
// Marks stay numbers, as in `image::part`.
ghost use Rattle.std.specs.Prelude.{◌≡◌, ℕ, ◌+◌, ◌-◌, ◌<◌, ◌≤◌, length, true};
ghost use Rattle.program.specs.Limits.{Mode};
ghost use Rattle.program.specs.Automaton.{Stack};
ghost use Rattle.reader.specs.Steps.{TermsAt};
ghost use Rattle.reader.specs.Tally.{Alike, Ends, Stops};

use crate::at::At;
use crate::rules::{code_refusal, name_refusal, span_refusal};
use crate::turns::Frame;

// Whether a frame is terms.
fn is_terms(e: Frame) -> bool
    ensures { result ≡ true → TermsAt e }
{
    matches!(e, Frame::Result(_) | Frame::Pattern(_))
}

// How many frames are left, and the place.
#[derive(Clone, Copy, Debug, PartialEq, Eq)]
pub struct Spot {
    pub n: usize,
    pub at: usize,
}

impl<'b> At<'b> {
    // Past the name here, where one stands whole before another byte.
    fn name_end(&self, number: bool) -> Option<usize>
        ensures { (x : Stack) → Ends self.now.b.now self.now.p (Stack.name number x) result x }
    {
        name_refusal(self.b, self.p, number).ok()?;
        let end = self.p + 1 + usize::from(self.b[self.p]);
        (end < self.b.len()).then_some(end)
    }

    // Past the code here, where one stands whole before another byte.
    fn code_end(&self) -> Option<usize>
        ensures { (x : Stack) → Ends self.now.b.now self.now.p (Stack.code x) result x }
    {
        code_refusal(self.b, self.p).ok()?;
        let end = self.p + 4;
        (end < self.b.len()).then_some(end)
    }

    // Past the flat term here, where one stands whole before another byte.
    fn flat_end(&self) -> Option<usize>
        ensures { (m : Mode) (d : ℕ) (x : Stack) → Ends self.now.b.now self.now.p (Stack.terms m d x) result (Stack.terms m d x) }
    {
        let m = self.b[self.p];
        if !matches!(m, 1..=6) {
            return None;
        }
        if self.b.len() - self.p < 10 {
            return None;
        }
        span_refusal(self.b, self.p + 1).ok()?;
        let word = At {
            b: self.b,
            p: self.p + 9,
        };
        match m {
            1 => word.code_end(),
            3 => word.name_end(true),
            _ => word.name_end(false),
        }
    }

    // Past the flat terms from here on.
    fn flat_terms(&self) -> usize
        ensures { (self.now.p ≤ result) × (result < length self.now.b.now) × ((m : Mode) (d : ℕ) (x : Stack) → Alike self.now.b.now self.now.p (Stack.terms m d x) result (Stack.terms m d x)) }
    {
        let b = self.b;
        let mut p = self.p;
        while let Some(end) = (At { b, p }).flat_end() {
            p = end;
        }
        p
    }

    // Past the count and the names here, where they stand whole before another byte.
    fn counted_end(&self) -> Option<usize>
        ensures { (x : Stack) → Ends self.now.b.now self.now.p (Stack.counted x) result x }
    {
        let b = self.b;
        if b.len() - self.p < 2 {
            return None;
        }
        let mut p = self.p + 1;
        for i in 0..b[self.p] {
            p = At { b, p }.name_end(false)?;
        }
        Some(p)
    }

    // Past the names of a declaration, where its count is on top: tried once, so that a refusal costs no more than twice the names.
    fn over_names(&self, s: &[Frame], n: usize) -> Spot
        requires { (0 < n) × (n ≤ length s.now) }
        ensures { Stops self.now.b.now s.now n self.now.p result }
    {
        let at = self.p;
        if !matches!(s[n - 1], Frame::Counted) {
            return Spot { n, at };
        }
        match self.counted_end() {
            Some(end) => Spot { n: n - 1, at: end },
            None => Spot { n, at },
        }
    }

    // Past flat terms, closes and declared names, which push no frame and count for nothing, up to any other byte. The height falls only
    // where a close stands.
    pub fn over_terms(&self, s: &[Frame], top: usize) -> Spot
        requires { top ≤ length s.now }
        ensures { Stops self.now.b.now s.now top self.now.p result }
    {
        let b = self.b;
        let mut p = self.p;
        for k in (0..top).rev() {
            if !is_terms(s[k]) {
                return At { b, p }.over_names(s, k + 1);
            }
            p = At { b, p }.flat_terms();
            if b[p] != 15 || b.len() - p < 2 {
                return Spot { n: k + 1, at: p };
            }
            p += 1;
        }
        Spot { n: 0, at: p }
    }
}
