// A program that is cleaned, once its rounds are done.
ghost use Rattle.std.specs.Prelude.{◌≤◌, length, ◌≡◌};
ghost use Rattle.image.specs.Parts.{Accepted};
ghost use Rattle.cleaner.specs.Writing.{Wrote};
ghost use Rattle.cleaner.specs.Delivery.{Delivery, SomeDelivery};

use crate::rounds::Rounds;
use answers::Lengths;
use index::Plan;
use output::mark::count_ones;
use output::writer::write_kept;
use program::Refusal;
use report::entries::Entries;
use report::format::{count_lists, format_clean_report};

// The cleaned image and the report, if there is room for that.
pub fn deliver(
    img: &[u8],
    output: &mut [u8],
    work: &mut [u32],
    plan: Plan,
    done: Rounds,
    report: &mut [u8],
) -> Result<Lengths, Refusal>
    requires { SomeDelivery img.now work.old plan done.root done.rounds × (length img.now ≤ length output.old) }
    ensures wrote { (a : Accepted img.now) → Delivery img.now a work.old plan done.root done.rounds → Wrote a.program output.old report.old result output.new report.new }
    ensures same { length work.new ≡ length work.old }
{
    let Rounds { root, rounds } = done;
    let n = img.len() - 12;
    let b = &img[..n];
    let from = plan.marks();
    let end = plan.calls();
    let after = count_ones(&work[from..end]);
    let figures = count_lists(b, work, plan, root, rounds, after, &mut report[..0]);
    let entries = Entries { b, work, plan };
    let needed = entries.measure_clean_report(root, rounds, figures, &mut report[..0]);
    if report.len() < needed {
        return Refusal::at(12, needed);
    }
    format_clean_report(b, work, plan, root, rounds, figures, report);
    let written = write_kept(img, &work[from..end], output);
    Ok(Lengths {
        output: written,
        report: needed,
    })
}
