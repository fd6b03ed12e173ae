// Bindings in the state. What is still to be tried is not stored: it follows from them.
ghost use Rattle.std.specs.Prelude.{◌≡◌, ◌&&◌, [], ℕ, ◌+◌, ◌≤◌, length, drop};
ghost use Rattle.program.specs.Bytes.{put16, get16};
ghost use Rattle.patterns.specs.Names.{same_name};
ghost use Rattle.patterns.specs.Equality.{eq_kind};
ghost use Rattle.meaning.specs.Match.{Bindings, value_of};
ghost use Rattle.text.specs.Fill.{Emitted, limit};
ghost use Rattle.matching.specs.Bindings.{VariableAt, put_binding, Numbers, RunAt, Run, Known};

use image::number::read16;
use image::part::name_part;
use symbols::same_name;
use text::emit::put_bytes;

// The 16-bit number at a place.
fn number_at(work: &[u8], at: usize) -> usize
    requires { at + 2 ≤ length work.now }
    ensures { result ≡ get16 work.now at }
{
    read16(work, at) as usize
}

// A 16-bit number.
fn put_number(work: &mut [u8], at: usize, n: usize) -> usize
    requires { at + 2 ≤ limit }
    ensures { Emitted work.old at (put16 n []) result work.new }
{
    put_bytes(work, at, &n.to_le_bytes()[..2])
}

// A binding: its variable's place in the body, where the value begins and ends, and where the expression ends that the pattern meets.
#[derive(Clone, Copy)]
pub struct Binding {
    pub place: usize,
    pub from: usize,
    pub until: usize,
    pub end: usize,
}

impl Binding {
    // The binding at a place of the state.
    pub fn read(work: &[u8], at: usize) -> Binding
        requires { at + 8 ≤ length work.now }
        ensures { Numbers work.now at result.place result.from result.until result.end }
    {
        Binding {
            place: number_at(work, at),
            from: number_at(work, at + 2),
            until: number_at(work, at + 4),
            end: number_at(work, at + 6),
        }
    }

    // It stands at a place of the state from now on.
    pub fn write(self, work: &mut [u8], at: usize) -> usize
        requires { at + 8 ≤ limit }
        ensures { Emitted work.old at (put_binding self.place self.from self.until self.end []) result work.new }
    {
        let second = put_number(work, at, self.place);
        let third = put_number(work, second, self.from);
        let fourth = put_number(work, third, self.until);
        put_number(work, fourth, self.end)
    }
}

// A binding's value ends at another place.
pub fn extend_binding(work: &mut [u8], at: usize, until: usize)
    requires { at + 6 ≤ limit }
    ensures { Emitted work.old (at + 4) (put16 until []) (at + 6) work.new }
{
    put_number(work, at + 4, until);
}

// Whether two variables are one: "a variable is its kind and caseless name".
pub fn same_variable(a: &[u8], b: &[u8]) -> bool
    requires { VariableAt a.now × VariableAt b.now }
    ensures { (x : VariableAt a.now) (y : VariableAt b.now) → result ≡ (eq_kind x.kind y.kind && same_name x.name y.name) }
{
    if a[0] != b[0] {
        return false;
    }
    let x = name_part(&a[9..]);
    let y = name_part(&b[9..]);
    same_name(x, y)
}

// The newest binding of the variable at p, if it has one from `low` up to `frame`.
pub fn lookup(body: &[u8], work: &[u8], low: usize, frame: usize, p: usize) -> Option<usize>
    requires { VariableAt (drop p body.now) × (frame ≤ length work.now) × ((top : ℕ) × Run body.now work.now top frame low) }
    ensures { (v : VariableAt (drop p body.now)) (top : ℕ) (b : Bindings) → RunAt body.now work.now top frame b low → Known work.now top frame result (value_of v.kind v.name b) }
{
    for at in (low..frame).step_by(8) {
        let known = Binding::read(work, at);
        if same_variable(&body[p..], &body[known.place..]) {
            return Some(at);
        }
    }
    None
}
