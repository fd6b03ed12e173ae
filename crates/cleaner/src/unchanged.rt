// A program with a call of Mu or Up, which is left alone.
ghost use Rattle.std.specs.Prelude.{◌≡◌, true, ◌<◌, ◌≤◌, length};
ghost use Rattle.program.specs.Encode.{own_sentence_count};
ghost use Rattle.image.specs.Parts.{Accepted};
ghost use Rattle.meaning.specs.Dispatch.{residual_dispatches_dynamically};
ghost use Rattle.cleaner.specs.Writing.{Wrote};
ghost use Rattle.cleaner.specs.Alone.{SomeAlone};

use answers::Lengths;
use output::bytes::copy_bytes;
use program::Refusal;
use report::format::format_unchanged;

// Same bytes out, and the report of it, if there is room for that.
pub fn leave_alone(
    img: &[u8],
    output: &mut [u8],
    report: &mut [u8],
    functions: usize,
    sentences: usize,
) -> Result<Lengths, Refusal>
    requires { SomeAlone img.now functions sentences × (length img.now ≤ length output.old) }
    ensures { (a : Accepted img.now) → residual_dispatches_dynamically a.program ≡ true → length a.program.functions ≡ functions → own_sentence_count a.program.functions ≡ sentences → Wrote a.program output.old report.old result output.new report.new }
{
    let needed = format_unchanged(&mut report[..0], functions, sentences);
    if report.len() < needed {
        return Refusal::at(12, needed);
    }
    format_unchanged(report, functions, sentences);
    let n = img.len();
    copy_bytes(img, 0, output, 0, n);
    Ok(Lengths {
        output: n,
        report: needed,
    })
}
