// One step of a match: a token of the pattern meets one of the value.
// Marks stay numbers, as in `image::part`.
ghost use Rattle.std.specs.Prelude.{◌≡◌, List, ℕ, ◌+◌, ◌≤◌, length, get_or, drop};
ghost use Rattle.std.proofs.Math.Option.{some};
ghost use Rattle.program.specs.Syntax.{variable};
ghost use Rattle.meaning.specs.Match.{Bindings, value_of};
ghost use Rattle.meaning.proofs.Matches.{WellKinded};
ghost use Rattle.meaning.proofs.Matching.{Pair, pair};
ghost use Rattle.matching.specs.Bindings.{VariableAt};
ghost use Rattle.matching.specs.Pairs.{PairsAt, SomePairs, Meets, VariablePair, Held, MeetsWith};

use crate::bindings::Binding;
use values::levels::same_front;
use values::tokens::Token;

// Where a match is: the pattern from p on in the body, the value from v up to `end` in the state.
// The body and the state go beside it as two slices: a struct of both would be no plainer, since a step only reads the state and a binding writes it.
#[derive(Clone, Copy)]
pub struct Place {
    pub p: usize,
    pub v: usize,
    pub end: usize,
}

// Where a token of the pattern leads: on, or to the end of the pattern.
#[derive(Clone, Copy)]
pub enum Met {
    On(Place),
    Matched(usize),
}

// A symbol, a bracket or a close of the pattern, if the value goes on alike.
pub fn meet_token(body: &[u8], work: &[u8], at: Place) -> Option<Met>
    requires { SomePairs body.now work.now at.p at.v at.end × ((4 ≤ get_or (drop at.p body.now) 0 0) × (get_or (drop at.p body.now) 0 0 ≤ 6) → ⊥) }
    ensures { (rest : List ℕ) (x : Pair) (l : List Pair) → PairsAt body.now work.now at.p at.v at.end rest x l → Meets body.now work.now at.end rest x l result }
{
    let a = &body[at.p..];
    if at.v == at.end {
        if a[0] == 15 {
            return Some(Met::Matched(at.p + 1));
        }
        return None;
    }
    let x = Token { bytes: a };
    let y = Token {
        bytes: &work[at.v..at.end],
    };
    if !x.same(y) {
        return None;
    }
    let p = at.p + x.size();
    let v = at.v + y.size();
    Some(Met::On(Place { p, v, ..at }))
}

// Behind the variable at p.
pub fn behind_variable(body: &[u8], p: usize) -> usize
    requires { VariableAt (drop p body.now) }
    ensures { (x : VariableAt (drop p body.now)) → (drop result body.now ≡ x.rest) × (result ≤ length body.now) }
{
    p + 10 + usize::from(body[p + 9])
}

// A variable of the pattern whose binding is at `known`, if the value begins with the same.
pub fn meet_known(body: &[u8], work: &[u8], at: Place, known: usize) -> Option<Place>
    requires { VariablePair body.now work.now at.p at.v at.end × (known + 8 ≤ length work.now) × ((top : ℕ) × Held work.now top known × (top ≤ length work.now)) }
    ensures { (q : VariablePair body.now work.now at.p at.v at.end) (b : Bindings) (top : ℕ) (u : Held work.now top known) → WellKinded b → value_of q.kind q.name b ≡ some u.value → MeetsWith body.now work.now at.end q.rest (pair (variable q.span q.kind q.name q.behind) q.value) q.more b b result }
{
    let held = Binding::read(work, known);
    let j = same_front(&work[held.from..held.until], &work[at.v..at.end])?;
    let p = behind_variable(body, at.p);
    Some(Place {
        p,
        v: at.v + j,
        ..at
    })
}
