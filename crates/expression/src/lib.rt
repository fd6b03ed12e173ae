// An expression that matches two patterns, written as image records with zero spans.
// That a body has at most 32,768 bytes is a clause of each function that is lent one.
#![tactic(auto)]

mod free;
mod records;
mod walk;

ghost use Rattle.std.specs.Prelude.{◌≤◌, [], length, drop};
ghost use Rattle.program.specs.Limits.{Mode};
ghost use Rattle.image.specs.Parts.{TermsAt};
ghost use Rattle.patterns.specs.Marks.{put_expression};
ghost use Rattle.patterns.specs.Meet.{meet};
ghost use Rattle.text.specs.Fill.{Emitted};

use crate::walk::{Ends, Step};
use text::writer::Writer;

// What the patterns at p and q of a body meet in, along the first successful split: written as far as it fits, and its length.
pub fn put_meeting(b: &[u8], p: usize, q: usize, out: &mut [u8], room: &mut [u32]) -> usize
    requires { TermsAt Mode.pattern (drop p b.now) × TermsAt Mode.pattern (drop q b.now) × (length b.now ≤ 32768) }
    ensures { (x : TermsAt Mode.pattern (drop p b.now)) (y : TermsAt Mode.pattern (drop q b.now)) → Emitted out.old 0 (put_expression (meet x.terms y.terms) []) result out.new }
{
    let start = Step {
        left: p,
        right: q,
        swapped: false,
        fuel: 4096,
        ends: Ends { next: 0, known: 0 },
    };
    let mut w = Writer {
        text: out,
        filled: 0,
    };
    walk::meet(b, start, &mut w, room);
    w.filled
}
