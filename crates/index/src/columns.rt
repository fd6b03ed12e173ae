// Where the columns of work begin. The bounds stand at each method: in the type they would be asked of those too that know less of a
// plan, as `fell` does.
ghost use Rattle.std.specs.Prelude.{◌≡◌, ◌+◌, ◌%◌, ◌<◌, ◌≤◌, length, get_or};
ghost use Rattle.index.specs.Layout.{lines, witnesses, marks, calls, links, notes, room, Reaches};

use crate::Plan;
use crate::table::place_of;

impl Plan {
    // The sentences' places, and the rounds in which they fell.
    pub fn lines(self) -> usize
        requires { self.functions ≤ 32768 }
        ensures { result ≡ lines self }
    {
        2 * self.functions
    }

    // The sentences' witnesses.
    pub fn witnesses(self) -> usize
        requires { (self.functions ≤ 32768) × (self.sentences ≤ 32768) }
        ensures { result ≡ witnesses self }
    {
        self.lines() + self.sentences
    }

    // The kept marks.
    pub fn marks(self) -> usize
        requires { (self.functions ≤ 32768) × (self.sentences ≤ 32768) }
        ensures { result ≡ marks self }
    {
        self.witnesses() + self.sentences
    }

    // The sites.
    pub fn calls(self) -> usize
        requires { (self.functions ≤ 32768) × (self.sentences ≤ 32768) }
        ensures { result ≡ calls self }
    {
        self.marks() + (self.sentences + 31) / 32
    }

    // The sites' links and classes.
    pub fn links(self) -> usize
        requires { (self.functions ≤ 32768) × (self.sentences ≤ 32768) × (self.sites ≤ 32768) }
        ensures { result ≡ links self }
    {
        self.calls() + self.sites
    }

    // The sites' notes.
    pub fn notes(self) -> usize
        requires { (self.functions ≤ 32768) × (self.sentences ≤ 32768) × (self.sites ≤ 32768) }
        ensures { result ≡ notes self }
    {
        self.links() + self.sites
    }

    // The room behind the columns.
    pub fn room(self) -> usize
        requires { (self.functions ≤ 32768) × (self.sentences ≤ 32768) × (self.sites ≤ 32768) }
        ensures { result ≡ room self }
    {
        self.notes() + self.sites
    }

    // Where the pattern of the sentence s stands: behind a mark and a span.
    pub fn pattern_place(self, work: &[u32], s: usize) -> usize
        requires { (s < self.sentences) × Reaches (marks self) work.now }
        ensures { (result ≡ get_or work.now (lines self + s) 0 % 32768 + 9) × (result < 32777) }
    {
        place_of(work, self.lines() + s) + 9
    }
}
