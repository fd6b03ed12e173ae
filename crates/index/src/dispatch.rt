// Whether a program calls a function that is chosen at run time.
ghost use Rattle.std.specs.Prelude.{◌≡◌, List, ◌+◌, ◌≤◌, length, drop};
ghost use Rattle.meaning.specs.Lists.{any};
ghost use Rattle.meaning.specs.Dispatch.{activates_acarried_call};
ghost use Rattle.restrictions.specs.Entries.{CallAt};
ghost use Rattle.told.specs.Numbered.{Held};
ghost use Rattle.index.specs.Tables.{SitesAt};
ghost use Rattle.index.specs.Linking.{SomeSites};

use restrictions::{Located, call_name};
use symbols::same_name;

// Whether the name is Mu or Up.
fn activates_a_carried_call(name: &[u8]) -> bool
    ensures { result ≡ activates_acarried_call name.now }
{
    if same_name(name, b"Mu") {
        return true;
    }
    same_name(name, b"Up")
}

// The same of the call at p.
fn call_activates(b: &[u8], p: usize) -> bool
    requires { CallAt (drop p b.now) }
    ensures { (x : CallAt (drop p b.now)) → result ≡ activates_acarried_call x.callee }
{
    activates_a_carried_call(call_name(&b[p..]))
}

// Whether any of the n sites calls Mu or Up.
pub fn residual_dispatches_dynamically(b: &[u8], work: &[u32], calls: usize, n: usize) -> bool
    requires { SomeSites b.now work.now calls n × (calls + n ≤ length work.now) }
    ensures { (held : List Held) → SitesAt b.now held work.now calls → length held ≡ n → result ≡ any (λ x. activates_acarried_call x.site.callee) held }
{
    for e in &work[calls..calls + n] {
        if call_activates(b, Located::from(*e).place) {
            return true;
        }
    }
    false
}
