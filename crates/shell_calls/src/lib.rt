// The calls on a shell of a pattern in the store that ask for its condition and its openings: each report
// by itself.
#![tactic(auto)]

ghost use Rattle.std.specs.Prelude.{◌≡◌, map, ◌<◌, ◌≤◌, get_or, length};
ghost use Rattle.std.proofs.lemmas.List.Edits.{sets};
ghost use Rattle.lists.specs.Lists.{flat};
ghost use Rattle.columns.specs.Sound.{Faultless, OfTables};
ghost use Rattle.pattern.specs.Contents.{content};
ghost use Rattle.reports.specs.Figures.{Opened};
ghost use Rattle.store.specs.Store.{count_table, held};
ghost use Rattle.shell.specs.Conditions.{condition};
ghost use Rattle.shell.specs.Shells.{shell_uses};
ghost use Rattle.shell_calls.specs.ShellCalls.{condition_answer, openings_answer, openings_out, ShellPromised};

use calls::{ShellFigure, find_shell};
use columns::{Columns, Derived};
use condition::Condition;
use errors::{CallError, NotThere};
use reports::{OpeningCounts, condition_in, put_openings};
use store::{Spans, Tables};

// The condition of a shell that is there.
fn condition_at(t: &Tables, n: usize) -> Condition
    requires { Faultless t.now × (n < get_or (count_table t.now) 5 0) }
    ensures { OfTables t.now (λ p. result.0 ≡ condition (shell_uses (content p) n)) }
{
    let mut derived = Derived::new();
    derived.put(t);
    let columns = Columns {
        t,
        derived: &derived,
    };
    condition_in(&columns, n)
}

// Writes the openings of a shell that is there.
fn openings_at(t: &Tables, n: usize, out: &mut [u16], lens: &mut [u16]) -> OpeningCounts
    requires faultless { Faultless t.now × (n < get_or (count_table t.now) 5 0) }
    requires in_bounds { (2048 ≤ length out.old) × (2048 ≤ length lens.old) }
    ensures { OfTables t.now (λ p. Opened (content p) n out.old lens.old out.new lens.new result) }
{
    let mut derived = Derived::new();
    derived.put(t);
    let columns = Columns {
        t,
        derived: &derived,
    };
    put_openings(&columns, n, out, lens)
}

// The condition of shell n.
pub fn shell_condition(
    t: &Tables,
    spans: &Spans,
    n: usize,
) -> Result<ShellFigure, CallError<NotThere>>
    ensures { result ≡ condition_answer (held t.now spans.now) n }
{
    find_shell(t, spans, n)?;
    Ok(ShellFigure::Condition(condition_at(t, n)))
}

// The openings of shell n: their uses one after the other, and the length of each.
pub fn extract_boundaries(
    t: &Tables,
    spans: &Spans,
    n: usize,
    out: &mut [u16; 2048],
    lens: &mut [u16; 2048],
) -> Result<ShellFigure, CallError<NotThere>>
    ensures value { result ≡ openings_answer (held t.now spans.now) n }
    ensures out_after { out.new ≡ sets out.old 0 (flat (openings_out (held t.now spans.now) n)) }
    ensures lens_after { lens.new ≡ sets lens.old 0 (map length (openings_out (held t.now spans.now) n)) }
    ensures shell_promised { ShellPromised (held t.now spans.now) n }
{
    find_shell(t, spans, n)?;
    let o = openings_at(t, n, out, lens);
    Ok(ShellFigure::Openings(o.openings, o.used, o.lookups))
}
