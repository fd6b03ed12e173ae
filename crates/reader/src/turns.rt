// One turn of reading: what stands at a place, and what is still to come after it. Marks are bytes, as document 01 numbers them.
ghost use Rattle.std.specs.Prelude.{◌≡◌, ℕ, ◌+◌, ◌-◌, ◌<◌, ◌≤◌, get_or, true};
ghost use Rattle.program.specs.Automaton.{Stack};
ghost use Rattle.reader.specs.Steps.{push, span_step, name_step, DoesAt, Does, TermsAt, bottom as bottomOf, functions_after};
ghost use Rattle.reader.specs.Tally.{TurnDoes};

use crate::at::At;
use crate::rules::{code_refusal, name_refusal, span_refusal};
use program::Refusal;

// A frame of the reader's stack, what is still to come: a number is a depth, or how many names come after the next.
#[derive(Clone, Copy, Debug, PartialEq, Eq)]
pub enum Frame {
    Result(u8),
    Pattern(u8),
    Conditions(u8),
    Sentences(u8),
    Name,
    Number,
    Names(u8),
    Code,
    Visibility,
    Counted,
}

// The stack is an array of frames.
const _: () = prove!(size_of::<Frame>() == 2);

// The frames that take the place of the one on top, the deepest first.
#[derive(Clone, Copy, Debug, PartialEq, Eq)]
pub enum Frames {
    Nothing,
    One(Frame),
    Two(Frame, Frame),
    Three(Frame, Frame, Frame),
}

// What a turn of the reader leads to: the next place, and what is to come there.
#[derive(Clone, Copy, Debug, PartialEq, Eq)]
pub struct Push {
    pub to: usize,
    pub frames: Frames,
}

fn go(to: usize, frames: Frames) -> Result<Push, Refusal>
    ensures { result ≡ Ok (push to frames) }
{
    Ok(Push { to, frames })
}

impl<'b> At<'b> {
    // After the mark here: its span, then the frames.
    #[tactic(auto, unfolding(crate::specs::Steps::span_step, crate::specs::Steps::step_of))]
    fn spanned(&self, frames: Frames) -> Result<Push, Refusal>
        ensures { result ≡ span_step self.now.b.now self.now.p frames }
    {
        span_refusal(self.b, self.p + 1)?;
        go(self.p + 9, frames)
    }

    // The name here, then the frames.
    #[tactic(auto, unfolding(crate::specs::Steps::name_step, crate::specs::Steps::step_of))]
    fn named(&self, number: bool, frames: Frames) -> Result<Push, Refusal>
        ensures { result ≡ name_step self.now.b.now self.now.p number frames }
    {
        name_refusal(self.b, self.p, number)?;
        go(self.p + 1 + usize::from(self.b[self.p]), frames)
    }

    // A turn at terms, t, where no bracket, call or block begins. Inlined: as a call it lets reading take up to a tenth more instructions.
    #[inline]
    fn turn_terms(&self, t: Frame) -> Result<Push, Refusal>
        requires { TermsAt t × (7 ≤ get_or self.now.b.now self.now.p 0 → 9 < get_or self.now.b.now self.now.p 0) }
        ensures { Does self.now.b.now self.now.p t result }
    {
        match self.b[self.p] {
            1 => self.spanned(Frames::Two(t, Frame::Code)),
            2 | 4..=6 => self.spanned(Frames::Two(t, Frame::Name)),
            3 => self.spanned(Frames::Two(t, Frame::Number)),
            15 => go(self.p + 1, Frames::Nothing),
            _ => Refusal::at(5, self.p),
        }
    }

    // A turn at terms of a pattern with d around them, where a call or block is refused however deep it stands.
    fn turn_pattern(&self, d: u8) -> Result<Push, Refusal>
        ensures { Does self.now.b.now self.now.p (Frame.Pattern d) result }
    {
        let t = Frame::Pattern(d);
        match self.b[self.p] {
            7 => {
                if d < 32 {
                    self.spanned(Frames::Two(t, Frame::Pattern(d + 1)))
                } else {
                    Refusal::at(10, self.p)
                }
            }
            8 | 9 => Refusal::at(9, self.p),
            _ => self.turn_terms(t),
        }
    }

    // A turn at terms of a result with d around them.
    fn turn_result(&self, d: u8) -> Result<Push, Refusal>
        ensures { Does self.now.b.now self.now.p (Frame.Result d) result }
    {
        let t = Frame::Result(d);
        let m = self.b[self.p];
        if !matches!(m, 7..=9) {
            return self.turn_terms(t);
        }
        if 32 <= d {
            return Refusal::at(10, self.p);
        }
        let inner = Frame::Result(d + 1);
        match m {
            7 => self.spanned(Frames::Two(t, inner)),
            8 => self.spanned(Frames::Three(t, inner, Frame::Name)),
            _ => self.spanned(Frames::Three(t, Frame::Sentences(d + 1), inner)),
        }
    }

    // A turn at a sentence's conditions and result.
    fn turn_conditions(&self, d: u8) -> Result<Push, Refusal>
        ensures { Does self.now.b.now self.now.p (Frame.Conditions d) result }
    {
        let t = Frame::Result(d);
        match self.b[self.p] {
            11 => self.spanned(Frames::Three(Frame::Conditions(d), Frame::Pattern(d), t)),
            12 => go(self.p + 1, Frames::One(t)),
            _ => Refusal::at(5, self.p),
        }
    }

    // A turn at sentences.
    fn turn_sentences(&self, d: u8) -> Result<Push, Refusal>
        ensures { Does self.now.b.now self.now.p (Frame.Sentences d) result }
    {
        let s = Frame::Sentences(d);
        match self.b[self.p] {
            10 => self.spanned(Frames::Three(s, Frame::Conditions(d), Frame::Pattern(d))),
            15 => go(self.p + 1, Frames::Nothing),
            _ => Refusal::at(5, self.p),
        }
    }

    // A turn below all frames, where declarations stand as long as there are no functions.
    fn turn_bottom(&self, functions: usize) -> Result<Push, Refusal>
        ensures { DoesAt self.now.b.now self.now.p (bottomOf functions) (bottomOf (functions_after (get_or self.now.b.now self.now.p 0) functions)) result }
    {
        match self.b[self.p] {
            17 => {
                if functions == 0 {
                    self.spanned(Frames::One(Frame::Counted))
                } else {
                    Refusal::at(5, self.p)
                }
            }
            18 => self.spanned(Frames::Three(Frame::Sentences(0), Frame::Name, Frame::Visibility)),
            _ => Refusal::at(5, self.p),
        }
    }

    // A turn at a character's code.
    fn turn_code(&self) -> Result<Push, Refusal>
        ensures { Does self.now.b.now self.now.p Frame.Code result }
    {
        code_refusal(self.b, self.p)?;
        go(self.p + 4, Frames::Nothing)
    }

    // A turn at a function's visibility.
    fn turn_visibility(&self) -> Result<Push, Refusal>
        ensures { Does self.now.b.now self.now.p Frame.Visibility result }
    {
        if self.b[self.p] < 2 {
            go(self.p + 1, Frames::Nothing)
        } else {
            Refusal::at(5, self.p)
        }
    }

    // A turn at a declaration's count.
    fn turn_counted(&self) -> Result<Push, Refusal>
        ensures { Does self.now.b.now self.now.p Frame.Counted result }
    {
        match self.b[self.p] {
            0 => go(self.p + 1, Frames::Nothing),
            n => go(self.p + 1, Frames::One(Frame::Names(n - 1))),
        }
    }

    // A turn at a declaration's names.
    fn turn_names(&self, n: u8) -> Result<Push, Refusal>
        ensures { Does self.now.b.now self.now.p (Frame.Names n) result }
    {
        if n == 0 {
            self.named(false, Frames::Nothing)
        } else {
            self.named(false, Frames::One(Frame::Names(n - 1)))
        }
    }

    // A turn at a frame.
    fn turn_frame(&self, e: Frame) -> Result<Push, Refusal>
        ensures { Does self.now.b.now self.now.p e result }
    {
        match e {
            Frame::Result(d) => self.turn_result(d),
            Frame::Pattern(d) => self.turn_pattern(d),
            Frame::Conditions(d) => self.turn_conditions(d),
            Frame::Sentences(d) => self.turn_sentences(d),
            Frame::Name => self.named(false, Frames::Nothing),
            Frame::Number => self.named(true, Frames::Nothing),
            Frame::Names(n) => self.turn_names(n),
            Frame::Code => self.turn_code(),
            Frame::Visibility => self.turn_visibility(),
            Frame::Counted => self.turn_counted(),
        }
    }

    // A turn at the frame on top, or below all frames, where so many functions are passed.
    pub fn turn(&self, functions: usize, top: Option<Frame>) -> Result<Push, Refusal>
        ensures { TurnDoes self.now.b.now self.now.p functions top result }
    {
        match top {
            Some(e) => self.turn_frame(e),
            None => self.turn_bottom(functions),
        }
    }
}
