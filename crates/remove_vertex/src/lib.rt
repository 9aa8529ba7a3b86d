// Removing a vertex (the Rust's shell.rs, `remove_vertex_by_concat_edges`).
#![tactic(auto)]

ghost use Rattle.std.specs.Prelude.{◌≡◌, [], ◌<◌, get_or, length};
ghost use Rattle.remove_vertex_corners.specs.Corners.{fit};
ghost use Rattle.pattern.specs.Checks.{pattern_faults};
ghost use Rattle.pattern.specs.Contents.{Pattern, content};
ghost use Rattle.edit_answers.specs.declared.EditError.TheVariants.{Unmatched};
ghost use Rattle.lists.specs.Lists.{unless};
ghost use Rattle.shell_edits.specs.Answers.{after_remove, remove_answer};
ghost use Rattle.shell_edits.specs.Edits.{end_faults, ending_wires, last_wire, near_faults, remove_faults};
ghost use Rattle.shell_edits.specs.NewEdges.{joined_ends};
ghost use Rattle.shell_wires.specs.Lent.{Lent};
ghost use Rattle.remove_vertex_corners.specs.Endings.{ending_of};
ghost use Rattle.store.specs.Store.{count_table, held};
ghost use Rattle.remove_vertex.specs.Removals.{OfEdges, corner_in, corner_lent, pair_edge, pair_stored, pairing, removal};

use concat::{append_edge, judge_join};
use edge::{Edge, EdgeID};
use edit_answers::EditError;
use errors::CallError;
use pattern::Lists;
use remove_vertex_corners::{Corner, Ending, corners_fit, corners_in, ending_in, put_wires};
use shell_wires::mark_wires;
use store::{
    Spans, Tables, counts_in, edge_in, lists_in, store_count, store_uses, store_wires, tables_known,
};
use store_check::check;
use vertex::VertexID;
use wire::Wire;
use words::sum_of;

// The wires of shell n with a use that ends at v, counted per listing; from the lists of a pattern
// without fault.
fn ending_at(lists: &Lists, n: usize, v: VertexID) -> Ending
    requires lent { (p : Pattern) × Lent p lists.now }
    requires n_bound { n < length lists.now.shells.now }
    ensures { (p : Pattern) → Lent p lists.now → result ≡ ending_of (ending_wires (content p) n v.0) }
{
    let listings = lists.listings;
    let start = sum_of(&lists.shells[..n]);
    let end = start + usize::from(lists.shells[n]);
    let wires = Wire {
        uses: lists.uses,
        ends: lists.ends,
    };
    ending_in(&wires, lists.wires, v, lists.faces, &listings[start..end])
}

// These wires, and the last one's pair, where they end at v: 24.
fn match_pair(lists: &Lists, v: VertexID, e: Ending) -> Result<(Ending, Corner), EditError>
    requires lent { (p : Pattern) × Lent p lists.now }
    requires first_bound { (e.first < length lists.now.wires.now) × (e.last < length lists.now.wires.now) }
    ensures value { result ≡ pairing (unless (fit e (corner_lent lists.now v.0 e.first) (corner_lent lists.now v.0 e.last)) Unmatched) e (corner_lent lists.now v.0 e.last) }
    ensures of_edges { OfEdges (length lists.now.ends.fronts.now) result }
{
    let wires = Wire {
        uses: lists.uses,
        ends: lists.ends,
    };
    let k = corners_in(&wires, lists.wires, v, e);
    let first = k.first;
    let last = k.last;
    if !corners_fit(e, first, last) {
        return Err(EditError::Unmatched);
    }
    Ok((e, last))
}

// The wires of shell n that end at v, and the last one's pair, from the lists of a pattern without
// fault, which has so many points: 3, 27, 23, 24.
fn find_pair(
    lists: &Lists,
    points: usize,
    n: usize,
    v: VertexID,
) -> Result<(Ending, Corner), EditError>
    requires { (p : Pattern) × Lent p lists.now }
    ensures value { (p : Pattern) → Lent p lists.now → points ≡ length (content p).points → result ≡ pairing (near_faults (content p) n v.0) (ending_of (ending_wires (content p) n v.0)) (corner_in (content p) v.0 (last_wire (ending_wires (content p) n v.0))) }
    ensures of_edges { OfEdges (length lists.now.ends.fronts.now) result }
{
    if n >= lists.shells.len() {
        return Err(EditError::Unnamed);
    }
    if usize::from(v.0) >= points {
        return Err(EditError::Unnamed);
    }
    let marks = mark_wires(lists, n);
    if marks.shared {
        return Err(EditError::SharedFace);
    }
    let e = ending_at(lists, n, v);
    if e.number == 0 {
        return Err(EditError::NotOneOrTwoWires);
    }
    if e.number > 2 {
        return Err(EditError::NotOneOrTwoWires);
    }
    match_pair(lists, v, e)
}

// The pair joined, and the wires that take it, where a and b are its edges and there are so many: 25,
// 26, 17.
fn join_pair(
    e: Ending,
    k: Corner,
    a: Edge,
    b: Edge,
    edges: usize,
) -> Result<(Edge, Ending), EditError>
    ensures { result ≡ removal (end_faults a k.ending b k.next edges) (joined_ends a k.ending b k.next) e }
{
    let d = judge_join(a, k.ending, b, k.next, edges)?;
    Ok((d, e))
}

// The new edge and the wires that take it: 3, 27, 23, 24, 25, 26, 17.
fn judge_removal(
    t: &Tables,
    spans: &Spans,
    n: usize,
    v: VertexID,
) -> Result<(Edge, Ending), EditError>
    requires { pattern_faults (held t.now spans.now) ≡ [] }
    ensures { result ≡ removal (remove_faults (content (held t.now spans.now)) n v.0) (pair_edge (content (held t.now spans.now)) v.0 (ending_of (ending_wires (content (held t.now spans.now)) n v.0))) (ending_of (ending_wires (content (held t.now spans.now)) n v.0)) }
{
    tables_known(t);
    let counts = counts_in(t);
    let lists = lists_in(t);
    let (e, k) = find_pair(&lists, counts[0], n, v)?;
    let a = edge_in(t, spans, usize::from(k.ending % 32768));
    let b = edge_in(t, spans, usize::from(k.next % 32768));
    join_pair(e, k, a, b, counts[1])
}

// Appends the new edge, and stores the wires that take it and all others; the edge's number.
fn write_removal(t: &mut Tables, spans: &mut Spans, v: VertexID, e: Ending, d: Edge) -> EdgeID
    requires spans_value { pattern_faults (held t.old spans.old) ≡ [] }
    requires t_bound { get_or (count_table t.old) 1 0 < 1024 }
    ensures result_value { result.0 ≡ get_or (count_table t.old) 1 0 }
    ensures spans_after { held t.new spans.new ≡ pair_stored (held t.old spans.old) v.0 e d }
{
    tables_known(t);
    let lists = lists_in(t);
    let wires = Wire {
        uses: lists.uses,
        ends: lists.ends,
    };
    let wired = lists.wires.len();
    let next = lists.ends.fronts.len() as u16;
    let mut uses = [0u16; 4096];
    let mut sizes = [0u16; 1024];
    let used = put_wires(&wires, lists.wires, v, e, next, &mut uses, &mut sizes);
    let a = append_edge(t, spans, d);
    store_uses(t, 0, &uses[..used]);
    store_wires(t, 0, &sizes[..wired]);
    store_count(t, 2, used as u16);
    a
}

// Removes a vertex of shell n: the two uses that meet there give way to one of a new edge, whose
// number is returned. Refused, the pattern is as it was. An accepted pattern stays so.
pub fn remove_vertex_by_concat_edges(
    t: &mut Tables,
    spans: &mut Spans,
    n: usize,
    v: VertexID,
) -> Result<EdgeID, CallError<EditError>>
    ensures value { result ≡ remove_answer (held t.old spans.old) n v.0 }
    ensures spans_after { held t.new spans.new ≡ after_remove (held t.old spans.old) n v.0 }
    ensures spans_after_2 { pattern_faults (held t.old spans.old) ≡ [] → pattern_faults (held t.new spans.new) ≡ [] }
{
    tables_known(t);
    check(t, spans)?;
    let (d, e) = judge_removal(t, spans, n, v)?;
    Ok(write_removal(t, spans, v, e, d))
}
