// Joining two uses to a new edge (the Rust's edge.rs, `Edge::concat`).
#![tactic(auto)]

ghost use Rattle.std.specs.Prelude.{◌≡◌, [], ◌<◌, get_or};
ghost use Rattle.pattern.specs.Checks.{pattern_faults};
ghost use Rattle.pattern.specs.Contents.{content};
ghost use Rattle.shell_edits.specs.Answers.{after_concat, concat_answer};
ghost use Rattle.shell_edits.specs.Edits.{concat_faults, end_faults, joined_edge, meet_faults};
ghost use Rattle.shell_edits.specs.NewEdges.{joined_ends, use_back, use_front};
ghost use Rattle.store.specs.Store.{count_table, held};
ghost use Rattle.concat.specs.Joins.{appended, joint};

use curve::join_curves;
use edge::{Edge, EdgeID};
use edit_answers::EditError;
use errors::CallError;
use store::{Spans, Tables, counts_in, edge_in, store_count, store_edge, tables_known};
use store_check::check;
use vertex::VertexID;

// The vertex that use u of an edge begins at.
fn use_front(d: Edge, u: u16) -> VertexID
    ensures { result ≡ use_front d u }
{
    if u >= 32768 {
        return d.back;
    }
    d.front
}

// The vertex that it ends at.
fn use_back(d: Edge, u: u16) -> VertexID
    ensures { result ≡ use_back d u }
{
    if u >= 32768 {
        return d.front;
    }
    d.back
}

// Joins use u of edge a and use v of edge b, where there are so many edges: 25, 26, 17.
pub fn judge_join(a: Edge, u: u16, b: Edge, v: u16, edges: usize) -> Result<Edge, EditError>
    ensures { result ≡ joint (end_faults a u b v edges) (joined_ends a u b v) }
{
    let front = use_front(a, u);
    let back = use_back(b, v);
    if front.0 == back.0 {
        return Err(EditError::SameEnds);
    }
    let k = join_curves(a.curve, b.curve).ok_or(EditError::SpanRefused)?;
    if edges >= 1024 {
        return Err(EditError::NoSpace);
    }
    Ok(Edge::new_unchecked(front, back, k))
}

// The same where the first use must end where the second begins: 29 first.
fn judge_concat(a: Edge, u: u16, b: Edge, v: u16, edges: usize) -> Result<Edge, EditError>
    ensures { result ≡ joint (meet_faults a u b v edges) (joined_ends a u b v) }
{
    let meet = use_back(a, u);
    let start = use_front(b, v);
    if meet.0 != start.0 {
        return Err(EditError::Disconnected);
    }
    judge_join(a, u, b, v, edges)
}

// Two uses of a pattern without fault, joined: 3 first.
fn concat_uses(t: &Tables, spans: &Spans, u: u16, v: u16) -> Result<Edge, EditError>
    requires { pattern_faults (held t.now spans.now) ≡ [] }
    ensures { result ≡ joint (concat_faults (content (held t.now spans.now)) u v) (joined_edge (content (held t.now spans.now)) u v) }
{
    tables_known(t);
    let counts = counts_in(t);
    let edges = counts[1];
    let i = usize::from(u % 32768);
    let j = usize::from(v % 32768);
    if i >= edges {
        return Err(EditError::Unnamed);
    }
    if j >= edges {
        return Err(EditError::Unnamed);
    }
    judge_concat(edge_in(t, spans, i), u, edge_in(t, spans, j), v, edges)
}

// Appends an edge, for which there is room; its number.
pub fn append_edge(t: &mut Tables, spans: &mut Spans, d: Edge) -> EdgeID
    requires { get_or (count_table t.old) 1 0 < 1024 }
    ensures result_value { result.0 ≡ get_or (count_table t.old) 1 0 }
    ensures spans_after { held t.new spans.new ≡ appended (held t.old spans.old) d }
{
    let counts = counts_in(t);
    let n = counts[1];
    store_edge(t, spans, n, d);
    store_count(t, 1, (n + 1) as u16);
    EdgeID(n as u16)
}

// Joins two uses to a new edge, which is appended. Refused, the pattern is as it was. An accepted
// pattern stays so.
pub fn concat(
    t: &mut Tables,
    spans: &mut Spans,
    u: u16,
    v: u16,
) -> Result<EdgeID, CallError<EditError>>
    ensures value { result ≡ concat_answer (held t.old spans.old) u v }
    ensures spans_after { held t.new spans.new ≡ after_concat (held t.old spans.old) u v }
    ensures spans_after_2 { pattern_faults (held t.old spans.old) ≡ [] → pattern_faults (held t.new spans.new) ≡ [] }
{
    tables_known(t);
    check(t, spans)?;
    let d = concat_uses(t, spans, u, v)?;
    Ok(append_edge(t, spans, d))
}
