// The report: the writing end is made over the lent text and carried through its pieces.
ghost use Rattle.std.specs.Prelude.{◌≡◌, ◌+◌, ◌<◌, ◌≤◌, length};
ghost use Rattle.program.specs.Syntax.{Program};
ghost use Rattle.program.specs.Encode.{own_sentence_count};
ghost use Rattle.meaning.specs.Root.{root_place};
ghost use Rattle.meaning.specs.Text.{Text};
ghost use Rattle.cleaning.specs.Indexed.{fell_of};
ghost use Rattle.cleaning.specs.Room.{Used};
ghost use Rattle.told.specs.ToldReport.{told_report, unchanged_report};
ghost use Rattle.text.specs.Counts.{graph_text, top_text};
ghost use Rattle.text.specs.Fill.{Emitted, limit};
ghost use Rattle.meaning.specs.Report.{format_clean_report};
ghost use Rattle.text.specs.Written.{written};
ghost use Rattle.report.specs.Removed.{Removing, SomeRemoving};
ghost use Rattle.report.specs.Format.{listed_text};
ghost use Rattle.report.specs.Figures.{FiguresOf, Few, Reporting, SomeReporting, anew};

use crate::entries::Entries;
use crate::listing::Lines;
use crate::uncovered::put_uncovered;
use index::Plan;
use text::counts::{Graph, Top};
use text::writer::Writer;

// The numbers of a report: sentences left, and of each list, and the line of uncharacterised functions, how long its
// text is and how many lines, or names, it has.
#[derive(Clone, Copy)]
pub struct Figures {
    pub after: usize,
    pub removed: Lines,
    pub undecided: Lines,
    pub uncovered: Lines,
    pub uncharacterised: Lines,
}

// The report of a program with a call of Mu or Up, which is left alone.
pub fn format_unchanged(out: &mut [u8], functions: usize, sentences: usize) -> usize
    requires { (functions < 100000000000000000) × (sentences < 100000000000000000) }
    ensures { (w : Program) → length w.functions ≡ functions → own_sentence_count w.functions ≡ sentences → Emitted out.old 0 (format_clean_report (unchanged_report w)) result out.new }
{
    let mut w = Writer {
        text: out,
        filled: 0,
    };
    w.put_unchanged(functions, sentences);
    w.filled
}

// A list that was emitted from the start: where it ends, and so many lines. The next begins at the start again.
fn measured(out: &mut Writer<'_>, count: usize) -> Lines
    ensures { (result.at ≡ out.old.filled) × (result.count ≡ count) × (out.new ≡ anew out.old) }
{
    let at = out.filled;
    out.filled = 0;
    Lines { at, count }
}

// The numbers of the report, with so many sentences left after so many rounds; the lists are emitted into no text.
pub fn count_lists(
    b: &[u8],
    work: &mut [u32],
    plan: Plan,
    root: usize,
    rounds: usize,
    after: usize,
    none: &mut [u8],
) -> Figures
    requires { SomeRemoving b.now work.old plan rounds × (rounds < 4096) × (after < 8192) }
    ensures counted { (w : Program) → Removing b.now w work.old plan rounds → after ≡ (told_report w (fell_of plan work.old) rounds).sentences_after → root ≡ root_place w → FiguresOf (told_report w (fell_of plan work.old) rounds) result × (length none.new ≡ length none.old) }
    ensures few { Few result }
    ensures keeps { Used plan work.old work.new }
{
    let mut w = Writer {
        text: none,
        filled: 0,
    };
    let entries = Entries { b, work, plan };
    let names = entries.put_uncharacterised(root, &mut w);
    let uncharacterised = measured(&mut w, names);
    let gone = entries.put_removed(rounds, &mut w);
    let removed = measured(&mut w, gone);
    let open = entries.put_undecided(&mut w);
    let undecided = measured(&mut w, open);
    let bare = put_uncovered(b, work, plan, &mut w);
    let uncovered = measured(&mut w, bare);
    Figures {
        after,
        removed,
        undecided,
        uncovered,
        uncharacterised,
    }
}

// The lines before the lists.
fn put_top(plan: Plan, rounds: usize, figures: Figures, out: &mut Writer<'_>)
    requires { (plan.functions ≤ 8192) × (plan.sentences ≤ 8192) × (rounds < 4096) × Few figures × (out.old.filled + 150 ≤ limit) }
    ensures { (out.new ≡ written out.old (top_text plan.functions plan.sentences figures.after rounds figures.removed.count)) × (out.new.filled ≤ out.old.filled + 150) }
{
    out.put_top(Top {
        functions: plan.functions,
        before: plan.sentences,
        after: figures.after,
        rounds,
        removed: figures.removed.count,
    });
}

// The lists and the lines between them, and the line of uncharacterised functions behind them.
fn put_lists(
    b: &[u8],
    work: &mut [u32],
    plan: Plan,
    root: usize,
    rounds: usize,
    figures: Figures,
    out: &mut Writer<'_>,
)
    requires { SomeReporting b.now work.old plan rounds figures × (rounds < 4096) × (out.old.filled ≤ 1000) }
    ensures written { (w : Program) → Reporting b.now w work.old plan rounds figures → out.new ≡ written out.old (listed_text w root (fell_of plan work.old) rounds) }
    ensures short { out.new.filled ≤ 1000000001000000000 }
    ensures keeps { Used plan work.old work.new }
{
    Entries { b, work, plan }.put_removed(rounds, out);
    out.put_count_line(b"undecided: ", figures.undecided.count);
    Entries { b, work, plan }.put_undecided(out);
    out.put_count_line(b"uncovered: ", figures.uncovered.count);
    put_uncovered(b, work, plan, out);
    Entries { b, work, plan }.put_uncharacterised(root, out);
}

// The verdict.
fn put_graph(plan: Plan, figures: Figures, out: &mut Writer<'_>)
    requires { (plan.functions ≤ 8192) × Few figures × (out.old.filled + 120 ≤ limit) }
    ensures { out.new ≡ written out.old (graph_text plan.functions figures.undecided.count figures.uncovered.count figures.uncharacterised.count) }
{
    out.put_graph(Graph {
        functions: plan.functions,
        undecided: figures.undecided.count,
        uncovered: figures.uncovered.count,
        uncharacterised: figures.uncharacterised.count,
    });
}

// The report of a program that was cleaned in so many rounds: all of it goes through
// "the report's writing end, which holds the lent text".
pub fn format_clean_report(
    b: &[u8],
    work: &mut [u32],
    plan: Plan,
    root: usize,
    rounds: usize,
    figures: Figures,
    out: &mut [u8],
) -> usize
    requires { SomeReporting b.now work.old plan rounds figures × (rounds < 4096) }
    ensures written { (w : Program) → Reporting b.now w work.old plan rounds figures → root ≡ root_place w → Emitted out.old 0 (format_clean_report (told_report w (fell_of plan work.old) rounds)) result out.new }
    ensures keeps { Used plan work.old work.new }
{
    let mut w = Writer {
        text: out,
        filled: 0,
    };
    put_top(plan, rounds, figures, &mut w);
    put_lists(b, work, plan, root, rounds, figures, &mut w);
    put_graph(plan, figures, &mut w);
    w.filled
}

// A text of so many bytes is counted and not written, since there is no place for it.
fn pass_over(out: &mut Writer<'_>, bytes: usize)
    requires { (length out.old.text.now ≡ 0) × (out.old.filled + bytes ≤ limit) }
    ensures written { (t : Text) → bytes ≡ length t → out.new ≡ written out.old t }
    ensures same { (length out.new.text.now ≡ 0) × (out.new.filled ≡ out.old.filled + bytes) }
{
    out.filled += bytes;
}

impl<'b, 'w> Entries<'b, 'w> {
    // Where the same report ends, emitted into no text: the lengths of the lists and of the line of names stand for them.
    pub fn measure_clean_report(
        &self,
        root: usize,
        rounds: usize,
        figures: Figures,
        none: &mut [u8],
    ) -> usize
        requires { SomeReporting self.now.b.now self.now.work.now self.now.plan rounds figures × (rounds < 4096) × (length none.old ≡ 0) }
        ensures { (w : Program) → Reporting self.now.b.now w self.now.work.now self.now.plan rounds figures → root ≡ root_place w → Emitted none.old 0 (format_clean_report (told_report w (fell_of self.now.plan self.now.work.now) rounds)) result none.new }
    {
        let mut w = Writer {
            text: none,
            filled: 0,
        };
        put_top(self.plan, rounds, figures, &mut w);
        pass_over(&mut w, figures.removed.at);
        w.put_count_line(b"undecided: ", figures.undecided.count);
        pass_over(&mut w, figures.undecided.at);
        w.put_count_line(b"uncovered: ", figures.uncovered.count);
        pass_over(&mut w, figures.uncovered.at);
        pass_over(&mut w, figures.uncharacterised.at);
        put_graph(self.plan, figures, &mut w);
        w.filled
    }
}
