// What a new variable takes first: one symbol, one term, or nothing, and before its sequence's close all there is.
// Marks stay numbers, as in `image::part`.
ghost use Rattle.std.specs.Prelude.{◌≡◌, ℕ, ◌+◌, ◌-◌, ◌<◌, ◌≤◌, length};
ghost use Rattle.std.proofs.Math.Option.{none};
ghost use Rattle.program.specs.Syntax.{e_kind};
ghost use Rattle.meaning.specs.Match.{Bindings, value_of};
ghost use Rattle.text.specs.Fill.{limit};
ghost use Rattle.matching.specs.Bindings.{RunAt};
ghost use Rattle.matching.specs.Binds.{BindsAs};
ghost use Rattle.matching.specs.Pairs.{VariablePair};
ghost use Rattle.matching.specs.Takes.{Takes, TakesUntil};

use crate::bindings::Binding;
use crate::steps::{Place, behind_variable};
use values::levels::{term_end, value_len};

// Where the value of a new `e.` variable ends first.
fn any_end(body: &[u8], work: &[u8], at: Place) -> usize
    requires { VariablePair body.now work.now at.p at.v at.end }
    ensures { (q : VariablePair body.now work.now at.p at.v at.end) (b : Bindings) → q.kind ≡ e_kind → value_of q.kind q.name b ≡ none → Takes body.now work.now at.p at.v at.end q b result }
{
    let next = behind_variable(body, at.p);
    if body[next] == 15 {
        return at.v + value_len(&work[at.v..at.end]);
    }
    at.v
}

// Where the value of a new `s.` or `t.` variable ends, if there is one for it.
fn one_end(body: &[u8], work: &[u8], at: Place) -> Option<usize>
    requires { VariablePair body.now work.now at.p at.v at.end }
    ensures { (q : VariablePair body.now work.now at.p at.v at.end) (b : Bindings) → (q.kind ≡ e_kind → ⊥) → value_of q.kind q.name b ≡ none → TakesUntil body.now work.now at.p at.v at.end q b result }
{
    if at.v == at.end {
        return None;
    }
    let x = &work[at.v..at.end];
    let m = x[0];
    if m == 15 {
        return None;
    }
    if m == 7 && body[at.p] == 4 {
        return None;
    }
    Some(at.v + term_end(x))
}

// Where the value of a new variable ends first, if there is one for it.
pub fn taken_end(body: &[u8], work: &[u8], at: Place) -> Option<usize>
    requires { VariablePair body.now work.now at.p at.v at.end }
    ensures { (q : VariablePair body.now work.now at.p at.v at.end) (b : Bindings) → value_of q.kind q.name b ≡ none → TakesUntil body.now work.now at.p at.v at.end q b result }
{
    if body[at.p] == 6 {
        return Some(any_end(body, work, at));
    }
    one_end(body, work, at)
}

// A new variable is bound below `low`, if there is a value for it.
pub fn bind_new(body: &[u8], work: &mut [u8], low: usize, at: Place) -> Option<Place>
    requires { VariablePair body.now work.old at.p at.v at.end × (8 ≤ low) × (low ≤ length work.old) × (length work.old ≤ limit) × (at.p < 65536) }
    ensures { (q : VariablePair body.now work.old at.p at.v at.end) (b : Bindings) (top frame : ℕ) → (top + 8 ≤ low) × (at.end ≤ top) × (top < 65536) × (low ≤ frame) → value_of q.kind q.name b ≡ none → RunAt body.now work.old top frame b low → BindsAs body.now work.old work.new top frame (low - 8) at.p at.v at.end q b result }
{
    let until = taken_end(body, work, at)?;
    let binding = Binding {
        place: at.p,
        from: at.v,
        until,
        end: at.end,
    };
    binding.write(work, low - 8);
    let p = behind_variable(body, at.p);
    Some(Place { p, v: until, ..at })
}
