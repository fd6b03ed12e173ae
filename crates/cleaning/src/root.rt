// The function where a program starts.
ghost use Rattle.std.specs.Prelude.{◌≡◌, List, map, zero, drop};
ghost use Rattle.std.proofs.Math.Option.{get_or};
ghost use Rattle.program.specs.Syntax.{Function};
ghost use Rattle.program.specs.Encode.{visibility_byte};
ghost use Rattle.image.specs.Parts.{FunctionAt};
ghost use Rattle.index.specs.Tabled.{Tabled, SomeTabled};
ghost use Rattle.meaning.specs.Root.{entry_place};

use index::table::place_of;

// The visibility of the function that stands at p, as its byte.
fn visibility_at(b: &[u8], p: usize) -> u8
    requires { FunctionAt (drop p b.now) }
    ensures { (x : FunctionAt (drop p b.now)) → result ≡ visibility_byte x.function.visibility }
{
    let v = p + 9;
    b[v]
}

// The place of the first Entry function, else 0.
pub fn root_place(b: &[u8], work: &[u32], functions: usize) -> usize
    requires { SomeTabled b.now work.now functions }
    ensures { (fs : List Function) → Tabled b.now work.now functions fs → result ≡ get_or (entry_place (map (λ f. f.visibility) fs)) zero }
{
    for f in 0..functions {
        let p = place_of(work, f);
        if visibility_at(b, p) == 1 {
            return f;
        }
    }
    0
}
