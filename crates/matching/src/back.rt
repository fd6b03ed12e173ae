// Back to a choice: the newest `e.` variable that can take a term more.
// Marks stay numbers, as in `image::part`.
ghost use Rattle.std.specs.Prelude.{◌≡◌, List, ℕ, ◌<◌, ◌≤◌, length};
ghost use Rattle.meaning.specs.Match.{Bindings};
ghost use Rattle.meaning.proofs.Searching.{Choice};
ghost use Rattle.matching.specs.Bindings.{RunAt};
ghost use Rattle.matching.specs.Choices.{ChoicesAt, SomeChoices, can_take, Readable, Newest, NewestAt, SomeNewest};
ghost use Rattle.matching.specs.Took.{Took};
ghost use Rattle.text.specs.Fill.{limit};

use crate::bindings::{Binding, extend_binding};
pub use crate::steps::Place;
use crate::steps::behind_variable;
use values::levels::term_end;

// Whether the binding at a place is an `e.` variable's that can take a term more.
fn can_take(body: &[u8], work: &[u8], at: usize) -> bool
    requires { Readable body.now work.now at }
    ensures { result ≡ can_take body.now work.now at }
{
    let b = Binding::read(work, at);
    if body[b.place] != 6 {
        return false;
    }
    b.until != b.end && work[b.until] != 15
}

// The newest binding, from `low` up to `stop`, of an `e.` variable that can take a term more, if there is one.
pub fn newest_choice(body: &[u8], work: &[u8], low: usize, stop: usize) -> Option<usize>
    requires { (top : ℕ) × (frame : ℕ) × SomeChoices body.now work.now top frame stop low × (frame ≤ length work.now) × (top ≤ length work.now) }
    ensures { (rest : List ℕ) (b : Bindings) (cs : List Choice) (top frame : ℕ) → top ≤ length work.now → RunAt body.now work.now top frame b low → ChoicesAt body.now work.now rest top stop b low cs → NewestAt body.now work.now rest top frame stop cs result }
{
    for at in (low..stop).step_by(8) {
        if can_take(body, work, at) {
            return Some(at);
        }
    }
    None
}

// The choice at a place takes one term more: where the search goes on.
pub fn take_more(body: &[u8], work: &mut [u8], at: usize) -> Place
    requires { (length work.old ≤ limit) × ((top : ℕ) × (frame : ℕ) × (stop : ℕ) × SomeNewest body.now work.old top frame stop at × (top ≤ at) × (frame ≤ length work.old)) }
    ensures { (rest : List ℕ) (cs : List Choice) (top frame stop : ℕ) → (top ≤ at) × (frame ≤ length work.old) × (top < 65536) → Newest body.now work.old rest top frame stop cs at → Took body.now work.new rest top frame stop cs at result }
{
    let b = Binding::read(work, at);
    let v = b.until + term_end(&work[b.until..b.end]);
    extend_binding(work, at, v);
    let p = behind_variable(body, b.place);
    Place { p, v, end: b.end }
}
