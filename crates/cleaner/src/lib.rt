// The entry points: every image and number is answered, and nothing is asked of the caller.
// That a body has at most 32,768 bytes is a clause of each function that is lent one. That the
// output is as long as the image is a fact of two lent slices.
#![tactic(auto)]

pub mod boundary;
mod delivery;
mod lookup;
mod rounds;
mod shared;
mod steps;
mod unchanged;

ghost use Rattle.std.specs.Prelude.{◌≡◌};
ghost use Rattle.answers.specs.Answers.{overlap_answer};
ghost use Rattle.answers.specs.CleanAnswers.{clean_answer, lending};
ghost use Rattle.answers.specs.ExpressionAnswers.{expression_answer};
ghost use Rattle.answers.specs.Packed.{CleanFits};

use answers::{Comparison, Lengths, Sharing};
use program::Refusal;
use reader::check::check;

// Clean: the image without the sentences that no call can reach, and a report of it.
pub fn clean(
    img: &[u8],
    output: &mut [u8],
    work: &mut [u32],
    report: &mut [u8],
) -> Result<Lengths, Refusal>
    ensures answered { result ≡ (clean_answer img.now (lending output.old work.old report.old)).answer }
    ensures outputs { output.new ≡ (clean_answer img.now (lending output.old work.old report.old)).lent.output }
    ensures works { work.new ≡ (clean_answer img.now (lending output.old work.old report.old)).lent.work }
    ensures reports { report.new ≡ (clean_answer img.now (lending output.old work.old report.old)).lent.report }
    ensures fits { CleanFits result }
{
    if img.len() < 12 || img.len() > 32768 {
        return Refusal::at(1, 0);
    }
    if output.len() < img.len() {
        return Refusal::at(2, 0);
    }
    if work.len() < img.len().div_ceil(4) {
        return Refusal::at(3, 0);
    }
    check(img)?;
    steps::clean_residual_program(img, output, work, report)
}

// Overlap: the verdict on the patterns of two sentences, numbered in file order from 0.
pub fn overlap(img: &[u8], first: usize, second: usize) -> Result<Comparison, Refusal>
    ensures { result ≡ overlap_answer img.now first second }
{
    let (i, j) = lookup::find_two(img, first, second)?;
    let n = img.len() - 12;
    Ok(lookup::compare(&img[..n], i, j))
}

// Overlap, and for its verdict Overlap one expression that matches both patterns, every variable occurrence read as fresh.
pub fn overlap_expression(
    img: &[u8],
    first: usize,
    second: usize,
    expression: &mut [u8],
) -> Result<Sharing, Refusal>
    ensures answered { result ≡ (expression_answer img.now first second expression.old).answer }
    ensures writes { expression.new ≡ (expression_answer img.now first second expression.old).lent }
{
    let (i, j) = lookup::find_two(img, first, second)?;
    let n = img.len() - 12;
    shared::share(&img[..n], i, j, expression)
}
