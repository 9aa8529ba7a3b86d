// The solid of a pattern in the store (Solid::try_new): each shell in turn, after the reading checks.
#![tactic(auto)]

ghost use Rattle.std.specs.Prelude.{◌≡◌, ◌<◌, get_or};
ghost use Rattle.columns.specs.Sound.{OfTables};
ghost use Rattle.pattern.specs.Contents.{content};
ghost use Rattle.solid.specs.Solid.{shell_errors, solid_of};
ghost use Rattle.store.specs.Store.{count_table, held};
ghost use Rattle.solid_calls.specs.Solids.{solid_answer};
ghost use Rattle.solid.specs.Sequence.{first_error};

use columns::{Columns, Derived};
use errors::CallError;
use reports::{condition_in, put_groups};
use solid::{ShellError, SolidError, check_shell, in_solid};
use store::{Spans, Tables, counts_in};
use store_check::check;

// What is wrong with shell n.
fn shell_check(columns: &Columns, n: usize) -> Result<(), ShellError>
    requires { n < get_or (count_table columns.now.t.now) 5 0 }
    ensures { OfTables columns.now.t.now (λ p. result ≡ first_error (shell_errors (content p) n)) }
{
    let first = columns.derived.places[n];
    let end = columns.derived.places[n + 1];
    let mut pairs = [0u16; 512];
    let mut sizes = [0u16; 512];
    let mut corners = [0u16; 2048];
    let condition = condition_in(columns, n);
    let g = put_groups(columns, n, &mut pairs, &mut sizes, &mut corners);
    check_shell(end - first, g.connected, condition, g.singular)
}

// The shells of a pattern, one after the other.
fn solid_of(columns: &Columns) -> Result<(), SolidError>
    ensures { OfTables columns.now.t.now (λ p. result ≡ solid_of (content p)) }
{
    let counts = counts_in(columns.t);
    let shells = counts[5];
    for n in 0..shells {
        in_solid(n, shell_check(columns, n))?;
    }
    Ok(())
}

// The solid of a pattern.
pub fn try_new(t: &Tables, spans: &Spans) -> Result<(), CallError<SolidError>>
    ensures { result ≡ solid_answer (held t.now spans.now) }
{
    check(t, spans)?;
    let mut derived = Derived::new();
    derived.put(t);
    let columns = Columns {
        t,
        derived: &derived,
    };
    Ok(solid_of(&columns)?)
}
