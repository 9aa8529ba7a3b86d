// What the calls on a shell of a pattern in the store share: the reading checks come first; then the shell
// must be there.
#![tactic(auto)]

ghost use Rattle.std.specs.Prelude.{◌≡◌};
ghost use Rattle.store.specs.Store.{held};
ghost use Rattle.calls.specs.Calls.{presence};

use condition::Condition;
use errors::{CallError, NotThere};
use store::{Spans, Tables, counts_in, tables_known};
use store_check::check;

// What a call asks of a shell: its condition; how many openings it has, their uses in all, the lookups;
// whether it is connected; how many components it has, their pairs in all; how many singular points.
#[derive(Clone, Copy)]
pub enum ShellFigure {
    Condition(Condition),
    Openings(usize, usize, usize),
    Connected(bool),
    Components(usize, usize),
    Singular(usize),
}

// The reading checks, then whether there is a shell n.
pub fn find_shell(t: &Tables, spans: &Spans, n: usize) -> Result<(), CallError<NotThere>>
    ensures { result ≡ presence (held t.now spans.now) n }
{
    tables_known(t);
    check(t, spans)?;
    let counts = counts_in(t);
    if n >= counts[5] {
        return Err(CallError::Refused(NotThere));
    }
    Ok(())
}
