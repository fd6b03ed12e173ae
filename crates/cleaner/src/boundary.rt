// What the static library answers under C names, each answer packed into one number.
ghost use Rattle.std.specs.Prelude.{◌≡◌};
ghost use Rattle.answers.specs.Answers.{overlap_answer, verdict_number};
ghost use Rattle.answers.specs.CleanAnswers.{clean_answer, lending};
ghost use Rattle.answers.specs.ExpressionAnswers.{expression_answer, pack_expression};
ghost use Rattle.answers.specs.Packed.{packed, FieldsFit, pack_clean, pack_overlap, CleanFits};

use crate::{clean, overlap, overlap_expression};
use patterns::Verdict;
use program::Refusal;

// Bits 0 to 7 the refusal's number or 0, 8 to 23 the middle, 24 to 63 the rest: a function of C hands back one number.
fn pack(number: u64, middle: u64, rest: u64) -> u64
    requires { FieldsFit number middle rest }
    ensures { result ≡ packed number middle rest }
{
    number + 256 * middle + 16777216 * rest
}

// A refusal: the middle is 0, the rest the place.
fn pack_refusal(f: Refusal) -> u64
    requires { FieldsFit f.number 0 f.place }
    ensures { result ≡ packed f.number 0 f.place }
{
    pack(u64::from(f.number), 0, f.place as u64)
}

// Clean: the middle is the length of the output, the rest the report's; or number and place.
pub fn showclean_clean(img: &[u8], output: &mut [u8], work: &mut [u32], report: &mut [u8]) -> u64
    ensures answered { result ≡ pack_clean (clean_answer img.now (lending output.old work.old report.old)).answer }
    ensures outputs { output.new ≡ (clean_answer img.now (lending output.old work.old report.old)).lent.output }
    ensures works { work.new ≡ (clean_answer img.now (lending output.old work.old report.old)).lent.work }
    ensures reports { report.new ≡ (clean_answer img.now (lending output.old work.old report.old)).lent.report }
    ensures fits { CleanFits (clean_answer img.now (lending output.old work.old report.old)).answer }
{
    match clean(img, output, work, report) {
        Ok(l) => pack(0, l.output as u64, l.report as u64),
        Err(f) => pack_refusal(f),
    }
}

// A verdict as a number: they are declared in document 01's order. A `From` could stand only in `patterns`, below the definition
// `verdict_number`, and could not have this contract.
fn verdict_number(verdict: Verdict) -> u64
    ensures { result ≡ verdict_number verdict }
{
    verdict as u64
}

// Overlap: the middle is the verdict, the rest the entries spent; or number and place.
pub fn showclean_overlap(img: &[u8], first: usize, second: usize) -> u64
    ensures { result ≡ pack_overlap (overlap_answer img.now first second) }
{
    match overlap(img, first, second) {
        Ok(c) => pack(0, verdict_number(c.verdict), u64::from(c.spent)),
        Err(f) => pack_refusal(f),
    }
}

// Overlap with an expression: the middle is the verdict and four times the entries spent, the rest the length; or number and
// place.
pub fn showclean_overlap_expression(
    img: &[u8],
    first: usize,
    second: usize,
    expression: &mut [u8],
) -> u64
    ensures answered { result ≡ pack_expression (expression_answer img.now first second expression.old).answer }
    ensures writes { expression.new ≡ (expression_answer img.now first second expression.old).lent }
{
    match overlap_expression(img, first, second, expression) {
        Ok(c) => {
            let middle = verdict_number(c.verdict) + 4 * u64::from(c.spent);
            pack(0, middle, c.length as u64)
        }
        Err(f) => pack_refusal(f),
    }
}
