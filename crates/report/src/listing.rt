// How far a list of the report has come, and the lists that lose neighbouring repeats.
ghost use Rattle.std.specs.Prelude.{◌≡◌, ◌+◌, ◌≤◌, Some, length};
ghost use mathlib.Core.List.{List, [], ◌∷◌};
ghost use Rattle.program.specs.Syntax.{Terms, Function, Program};
ghost use Rattle.meaning.specs.Lists.{any};
ghost use Rattle.text.specs.Fill.{limit};
ghost use Rattle.report.specs.Entries.{Reads, SomeReads};
ghost use Rattle.report.specs.Listing.{Named, named, same_named, Stands, StandsFor, SomeStands, Listing};

use crate::entries::Entries;
use compare::same_text;
use text::writer::Writer;

// Where its text ends, and how many lines, or names, it has.
#[derive(Clone, Copy)]
pub struct Lines {
    pub at: usize,
    pub count: usize,
}

// A function, and where in the body the pattern or the argument stands that is to be told of it.
#[derive(Clone, Copy)]
pub struct Candidate {
    pub function: usize,
    pub terms: usize,
}

// How many lines there are so far, and the candidate that was told last.
#[derive(Clone, Copy)]
pub struct Listed {
    pub count: usize,
    pub last: Option<Candidate>,
}

impl<'b, 'w> Entries<'b, 'w> {
    // Whether the candidate repeats the last one: the same function's name and the same text. Inlined, as is `put_candidate`: as calls
    // they take a third more instructions where functions of one name share many sites.
    #[inline(always)]
    fn repeats(&self, next: Candidate, last: Option<Candidate>) -> bool
        requires { SomeReads self.now × ((w : Program) → Reads self.now w → SomeStands self.now.b.now w (Some next) × SomeStands self.now.b.now w last) }
        ensures { (w : Program) (x : Function) (r : Terms) (z : List Named) → Reads self.now w → Stands self.now.b.now w next x r → StandsFor self.now.b.now w last z → result ≡ any (λ y. same_named y (named x r)) z }
    {
        match last {
            None => false,
            Some(last) => {
                self.same_function(last.function, next.function)
                    && same_text(&self.b[last.terms..], &self.b[next.terms..])
            }
        }
    }

    // Tells the candidate, unless it repeats the last one: a line of its name and, between `before` and `after`, its text.
    #[inline(always)]
    pub fn put_candidate(
        &self,
        next: Candidate,
        before: &[u8],
        after: &[u8],
        out: &mut Writer<'_>,
        listed: Listed,
    ) -> Listed
        requires { SomeReads self.now × ((w : Program) → Reads self.now w → SomeStands self.now.b.now w (Some next) × SomeStands self.now.b.now w listed.last) × (length before.now + length after.now ≤ 8) × (out.old.filled + 80000 ≤ limit) × (listed.count ≤ out.old.filled) }
        ensures told { (w : Program) (x : Function) (r : Terms) → Reads self.now w → Stands self.now.b.now w next x r → Listing before.now after.now self.now.b.now w (named x r ∷ []) out.old listed.count listed.last out.new result.count result.last }
        ensures short { (out.new.filled ≤ out.old.filled + 80000) × (result.count ≤ out.new.filled) }
    {
        let last = Some(next);
        if self.repeats(next, listed.last) {
            return Listed {
                count: listed.count,
                last,
            };
        }
        out.put_bytes(b"  ");
        self.put_name(next.function, out);
        out.put_bytes(before);
        out.format_terms(&self.b[next.terms..]);
        out.put_bytes(after);
        Listed {
            count: listed.count + 1,
            last,
        }
    }
}
