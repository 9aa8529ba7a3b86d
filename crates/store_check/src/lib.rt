// The reading checks of a pattern in the store, from the counts on.
#![tactic(auto)]

ghost use Rattle.std.specs.Prelude.{◌≡◌, [], ◌≤◌, take};
ghost use Rattle.errors.specs.Faults.{first as firstFault, each};
ghost use Rattle.lists.specs.Lists.{tabulate};
ghost use Rattle.pattern.specs.Checks.{content_faults, count_faults, edge_faults, pattern_faults};
ghost use Rattle.pattern.specs.Contents.{content};
ghost use Rattle.pattern.specs.Outlines.{wire_place};
ghost use Rattle.store.specs.Store.{count_table, edge_in, held};

use errors::{CallError, NotThere, Refusal};
use pattern::{check_counts, check_edge};
use store::{Spans, Tables, counts_in, edge_in, lists_in, tables_known};
use words::sum_of;

// Checks the first n edges.
fn check_edges(t: &Tables, spans: &Spans, n: usize, points: usize) -> Result<(), Refusal>
    requires { n ≤ 1024 }
    ensures { result ≡ firstFault (each (edge_faults points) 0 (take n (tabulate 1024 (edge_in t.now spans.now)))) }
{
    for k in 0..n {
        check_edge(edge_in(t, spans, k), k, points)?;
    }
    Ok(())
}

// The reading checks after the counts.
pub fn check_records(t: &Tables, spans: &Spans) -> Result<(), Refusal>
    requires { count_faults (count_table t.now) ≡ [] }
    ensures { result ≡ firstFault (content_faults (content (held t.now spans.now))) }
{
    tables_known(t);
    let counts = counts_in(t);
    check_edges(t, spans, counts[1], counts[0])?;
    lists_in(t).check()
}

// The reading checks, which every call on a pattern in the store makes first.
pub fn check(t: &Tables, spans: &Spans) -> Result<(), Refusal>
    ensures { result ≡ firstFault (pattern_faults (held t.now spans.now)) }
{
    check_counts(counts_in(t))?;
    check_records(t, spans)
}

// The place of an outline in the use list: `wire::outline` hands back that part of it.
pub fn wire_place(
    t: &Tables,
    spans: &Spans,
    w: usize,
) -> Result<(usize, usize), CallError<NotThere>>
    ensures { result ≡ wire_place (held t.now spans.now) w }
{
    tables_known(t);
    check(t, spans)?;
    let wires = lists_in(t).wires;
    if w >= wires.len() {
        return Err(CallError::Refused(NotThere));
    }
    Ok((sum_of(&wires[..w]), usize::from(wires[w])))
}
