// The entry points under C names, for the static library: each answers as the function of that name in `cleaner::boundary`.
#![tactic(auto)]

ghost use Rattle.std.specs.Prelude.{◌≡◌};
ghost use Rattle.answers.specs.Answers.{overlap_answer};
ghost use Rattle.answers.specs.CleanAnswers.{clean_answer, lending};
ghost use Rattle.answers.specs.ExpressionAnswers.{expression_answer, pack_expression};
ghost use Rattle.answers.specs.Packed.{pack_clean, pack_overlap, CleanFits};

use cleaner::boundary;

// Clean: the middle is the length of the output, the rest the report's; or number and place.
#[unsafe(no_mangle)]
pub extern "C" fn showclean_clean(
    img: &[u8],
    output: &mut [u8],
    work: &mut [u32],
    report: &mut [u8],
) -> u64
    ensures answered { result ≡ pack_clean (clean_answer img.now (lending output.old work.old report.old)).answer }
    ensures outputs { output.new ≡ (clean_answer img.now (lending output.old work.old report.old)).lent.output }
    ensures works { work.new ≡ (clean_answer img.now (lending output.old work.old report.old)).lent.work }
    ensures reports { report.new ≡ (clean_answer img.now (lending output.old work.old report.old)).lent.report }
    ensures fits { CleanFits (clean_answer img.now (lending output.old work.old report.old)).answer }
{
    boundary::showclean_clean(img, output, work, report)
}

// Overlap: the middle is the verdict, the rest the entries spent; or number and place.
#[unsafe(no_mangle)]
pub extern "C" fn showclean_overlap(img: &[u8], first: usize, second: usize) -> u64
    ensures { result ≡ pack_overlap (overlap_answer img.now first second) }
{
    boundary::showclean_overlap(img, first, second)
}

// Overlap with an expression: the middle is the verdict and four times the entries spent, the rest the length; or number and
// place.
#[unsafe(no_mangle)]
pub extern "C" fn showclean_overlap_expression(
    img: &[u8],
    first: usize,
    second: usize,
    expression: &mut [u8],
) -> u64
    ensures answered { result ≡ pack_expression (expression_answer img.now first second expression.old).answer }
    ensures writes { expression.new ≡ (expression_answer img.now first second expression.old).lent }
{
    boundary::showclean_overlap_expression(img, first, second, expression)
}
