// Clean on an accepted image.
ghost use Rattle.std.specs.Prelude.{◌≡◌, ◌+◌, ◌/◌, ◌≤◌, length};
ghost use Rattle.image.specs.Parts.{Accepted};
ghost use Rattle.answers.specs.CleanAnswers.{zeroed};
ghost use Rattle.cleaner.specs.Writing.{Wrote};

use crate::delivery::deliver;
use crate::rounds::clean_listed;
use crate::unchanged::leave_alone;
use answers::Lengths;
use cleaning::prepare::list_program;
use image::part::{function_count, functions_start, sentence_count};
use index::Plan;
use index::dispatch::residual_dispatches_dynamically;
use index::listing::fill;
use program::Refusal;

// The same with as many entries of work as the image needs, which are left as they come.
fn clean_in(
    img: &[u8],
    output: &mut [u8],
    work: &mut [u32],
    report: &mut [u8],
) -> Result<Lengths, Refusal>
    requires { Accepted img.now × (length img.now ≤ length output.old) × (length work.old ≡ (length img.now + 3) / 4) }
    ensures wrote { (a : Accepted img.now) → Wrote a.program output.old report.old result output.new report.new }
    ensures same { length work.new ≡ length work.old }
{
    let n = img.len() - 12;
    let b = &img[..n];
    let from = functions_start(img);
    let functions = function_count(img);
    let sentences = sentence_count(img);
    let sites = list_program(b, from, work, functions, sentences);
    let plan = Plan {
        functions,
        sentences,
        sites,
    };
    if residual_dispatches_dynamically(b, work, plan.calls(), sites) {
        return leave_alone(img, output, report, functions, sentences);
    }
    let done = clean_listed(b, work, plan);
    deliver(img, output, work, plan, done, report)
}

// Output, report and answer, and work all zero. The three slices are no struct: with a part of work lent in it, and work cleared
// afterwards, this function gets no proof, and each function below would first take it apart.
pub fn clean_residual_program(
    img: &[u8],
    output: &mut [u8],
    work: &mut [u32],
    report: &mut [u8],
) -> Result<Lengths, Refusal>
    requires { Accepted img.now × (length img.now ≤ length output.old) × ((length img.now + 3) / 4 ≤ length work.old) }
    ensures wrote { (a : Accepted img.now) → Wrote a.program output.old report.old result output.new report.new }
    ensures cleared { work.new ≡ zeroed work.old }
{
    let entries = img.len().div_ceil(4);
    let answer = clean_in(img, output, &mut work[..entries], report);
    let end = work.len();
    fill(work, 0, end, 0);
    answer
}
