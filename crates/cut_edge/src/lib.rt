// Cutting an edge of a shell, in the store (the Rust's Shell::cut_edge).
#![tactic(auto)]

ghost use Rattle.std.specs.Prelude.{[], Some, ◌≡◌, ◌+◌, ◌<◌, ◌≤◌, get_or, length};
ghost use Rattle.lists.specs.Lists.{flat};
ghost use Rattle.pattern.specs.Checks.{pattern_faults};
ghost use Rattle.shell_edits.specs.Answers.{after_cut, cut_answer};
ghost use Rattle.shell_edits.specs.NewEdges.{half_edges};
ghost use Rattle.store.specs.Store.{count_table, edge_in, held};
ghost use Rattle.cut_edge.specs.Cutting.{cut_in, cut_stored, with_halves};

use curve::{Parameter, cut_curve};
use cut_edge_faults::{all_named, judge_cut};
use cut_edge_wires::put_cut_wires;
use edge::{Curve, Edge, EdgeID};
use edit_answers::EditError;
use errors::CallError;
use shell_wires::mark_wires;
use store::{
    Spans, Tables, counts_in, edge_in, ends_in, lists_in, store_count, store_edge, store_uses,
    store_wires, tables_known,
};
use store_check::check;
use vertex::VertexID;
use wire::Wire;

// Stores the halves k and l of edge e, parted at v, as edges a and a + 1.
fn store_halves(
    t: &mut Tables,
    spans: &mut Spans,
    a: usize,
    e: EdgeID,
    v: VertexID,
    k: Curve,
    l: Curve,
)
    requires { (a + 2 ≤ 1024) × (e.0 < 1024) }
    ensures { held t.new spans.new ≡ with_halves (held t.old spans.old) a (half_edges (edge_in t.old spans.old e.0) v.0 (Some (k, l))) }
{
    let d = edge_in(t, spans, usize::from(e.0));
    let front = d.front;
    let back = d.back;
    store_edge(t, spans, a, Edge::new_unchecked(front, v, k));
    store_edge(t, spans, a + 1, Edge::new_unchecked(v, back, l));
}

// Stores the halves of edge e after the edges, and the wires, of which those with a flag use the halves
// for it.
fn store_cut(
    t: &mut Tables,
    spans: &mut Spans,
    flags: &[bool],
    e: EdgeID,
    v: VertexID,
    k: Curve,
    l: Curve,
) -> (EdgeID, EdgeID)
    requires spans_value { (pattern_faults (held t.old spans.old) ≡ []) × (e.0 < get_or (count_table t.old) 1 0) × (v.0 < get_or (count_table t.old) 0 0) × (length flags.now ≡ 1024) }
    requires t_bound { (get_or (count_table t.old) 1 0 + 2 ≤ 1024) × (length (flat (cut_in flags.now e.0 t.old)) ≤ 4096) }
    ensures value { result ≡ (record { 0 = get_or (count_table t.old) 1 0 }, record { 0 = get_or (count_table t.old) 1 0 + 1 }) }
    ensures spans_after { held t.new spans.new ≡ cut_stored (held t.old spans.old) (half_edges (edge_in t.old spans.old e.0) v.0 (Some (k, l))) (cut_in flags.now e.0 t.old) }
{
    tables_known(t);
    let counts = counts_in(t);
    let a = counts[1];
    store_halves(t, spans, a, e, v, k, l);
    tables_known(t);
    let lists = lists_in(t);
    let wires = Wire {
        uses: lists.uses,
        ends: ends_in(t),
    };
    let mut uses = [0u16; 4096];
    let mut sizes = [0u16; 1024];
    let total = put_cut_wires(
        &wires,
        lists.wires,
        flags,
        e,
        a as u16,
        &mut uses,
        &mut sizes,
    );
    store_uses(t, 0, &uses[..total]);
    store_wires(t, 0, &sizes[..counts[3]]);
    store_count(t, 1, (a + 2) as u16);
    store_count(t, 2, total as u16);
    let first = a as u16;
    (EdgeID(first), EdgeID(first + 1))
}

// Cuts edge e of shell n, all of whose numbers name something: 27, 14, 15, 16, 17.
fn cut_named(
    t: &mut Tables,
    spans: &mut Spans,
    n: usize,
    e: EdgeID,
    v: VertexID,
    at: Parameter,
) -> Result<(EdgeID, EdgeID), CallError<EditError>>
    requires spans_value { pattern_faults (held t.old spans.old) ≡ [] }
    requires n_bound { (n < get_or (count_table t.old) 5 0) × (e.0 < get_or (count_table t.old) 1 0) × (v.0 < get_or (count_table t.old) 0 0) }
    ensures value { result ≡ cut_answer (held t.old spans.old) n e.0 v.0 at }
    ensures spans_after { held t.new spans.new ≡ after_cut (held t.old spans.old) n e.0 v.0 at }
    ensures spans_after_2 { pattern_faults (held t.new spans.new) ≡ [] }
{
    tables_known(t);
    let lists = lists_in(t);
    let marks = mark_wires(&lists, n);
    let wires = Wire {
        uses: lists.uses,
        ends: lists.ends,
    };
    let d = edge_in(t, spans, usize::from(e.0));
    let (k, l) = judge_cut(
        &wires,
        lists.wires,
        marks.shared,
        &marks.wires,
        e,
        v,
        cut_curve(d.curve, at),
    )?;
    Ok(store_cut(t, spans, &marks.wires, e, v, k, l))
}

// Cuts edge e of shell n of the pattern in the store at vertex v, where the search put it. Refused, the
// pattern is as it was.
pub fn cut_edge(
    t: &mut Tables,
    spans: &mut Spans,
    n: usize,
    e: EdgeID,
    v: VertexID,
    at: Parameter,
) -> Result<(EdgeID, EdgeID), CallError<EditError>>
    ensures value { result ≡ cut_answer (held t.old spans.old) n e.0 v.0 at }
    ensures spans_after { held t.new spans.new ≡ after_cut (held t.old spans.old) n e.0 v.0 at }
    ensures spans_after_2 { pattern_faults (held t.old spans.old) ≡ [] → pattern_faults (held t.new spans.new) ≡ [] }
{
    check(t, spans)?;
    tables_known(t);
    let counts = counts_in(t);
    if !all_named(n, counts[5], e, counts[1], v, counts[0]) {
        return Err(CallError::Refused(EditError::Unnamed));
    }
    cut_named(t, spans, n, e, v, at)
}
