// The rounds of a program whose functions, sentences and sites are listed.
ghost use Rattle.std.specs.Prelude.{◌<◌, ◌≤◌, length, ◌≡◌};
ghost use Rattle.program.specs.Syntax.{Program};
ghost use Rattle.cleaning.specs.Prepared.{ProgramListed, SomeListing};
ghost use Rattle.cleaner.specs.Done.{Done};

use cleaning::prepare::link_program;
use cleaning::root::root_place;
use cleaning::rounds::clean_rounds;
use index::Plan;
use output::left::mark_left;
use report::decided::note_undecided;
use report::notes::note_repeats;

// The root's place, and how many rounds there were.
#[derive(Clone, Copy, Debug, PartialEq, Eq)]
pub struct Rounds {
    pub root: usize,
    pub rounds: usize,
}

// Links the sites, goes through the rounds, marks the sentences that are left, and notes sites and sentences for the report.
pub fn clean_listed(b: &[u8], work: &mut [u32], plan: Plan) -> Rounds
    requires { SomeListing b.now work.old plan × (length b.now ≤ 32768) }
    ensures done { (w : Program) → ProgramListed b.now w work.old plan → Done b.now w work.new plan result.root result.rounds }
    ensures few { result.rounds < 4096 }
    ensures same { length work.new ≡ length work.old }
{
    link_program(b, work, plan);
    let root = root_place(b, work, plan.functions);
    let rounds = clean_rounds(b, work, plan, root);
    mark_left(work, plan);
    note_repeats(work, plan);
    note_undecided(b, work, plan);
    Rounds { root, rounds }
}
