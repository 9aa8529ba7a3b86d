// What a line of text adds to a pattern, stored after what is there.
#![tactic(auto)]

ghost use Rattle.std.specs.Prelude.{◌≡◌, List, [], ◌+◌, ◌<◌, ◌≤◌, min, Float, length};
ghost use Rattle.std.proofs.lemmas.List.Edits.{sets};
ghost use Rattle.lists.specs.Lists.{flat};
ghost use Rattle.pattern.specs.Checks.{count_faults};
ghost use Rattle.pattern.specs.Contents.{counts_of};
ghost use Rattle.store.specs.Store.{count_table, held};
ghost use Rattle.draft_parts.specs.Adding.{added, summed};
ghost use Rattle.draft_parts.specs.Parts.{bare, edge_of, edge_parts, face_parts, needed_words, parts_of, point_parts, shell_parts, wire_lengths, wire_lists};
ghost use Rattle.words.specs.Words.{short};
ghost use Rattle.store.specs.Columns.{with_uses, with_wires};

use draft_forms::LineKind;
use edge::{Curve, Edge};
use face::Face;
use pattern::Counts;
use store::{
    LISTINGS, SHELLS, Spans, Tables, USES, WIRES, counts_in, store_count, store_edge, store_face,
    store_label, tables_known,
};
use store_read::f64_of;
use vertex::VertexID;
use words::{put_saturated, saturated};

// How many words a line of this kind must have after the first.
pub fn needed(kind: LineKind) -> usize
    ensures { result ≡ needed_words kind }
{
    match kind {
        LineKind::Edge => 8,
        LineKind::Shell => 2,
        LineKind::Empty => 0,
        _ => 3,
    }
}

// Whether a pattern with these counts has no points, edges, faces and shells.
pub fn is_bare(counts: Counts) -> bool
    ensures { result ≡ bare counts }
{
    matches!(counts, [0, 0, _, _, 0, 0, _])
}

// A length as a number of 16 bits; 65,535 for a larger one.
fn small_length(n: usize) -> u16
    ensures { result ≡ short n }
{
    n.min(65535) as u16
}

fn label_of(v: u64) -> u32
    ensures { result ≡ min v 4294967295 }
{
    v.min(4294967295) as u32
}

// Numbers of uses and wires.
#[derive(Clone, Copy)]
struct Tail {
    uses: usize,
    wires: usize,
}

// How many uses and wires there are: v are uses, and 65,536 where a wire begins.
fn count_wires(v: &[u64]) -> Tail
    ensures { (result.uses ≡ length (flat (wire_lists v.now))) × (result.wires ≡ length (wire_lists v.now)) × (result.uses + result.wires ≤ length v.now) }
{
    let mut uses: usize = 0;
    let mut wires: usize = 0;
    for x in v {
        if *x == 65536 {
            wires += 1;
        } else if wires > 0 {
            uses += 1;
        }
    }
    Tail { uses, wires }
}

// The counts after a line of this kind with these values.
pub fn counts_after(kind: LineKind, v: &[u64], counts: Counts) -> Counts
    requires { count_faults counts ≡ [] }
    ensures { result ≡ summed counts (counts_of (parts_of kind v.now)) }
{
    let mut after = counts;
    let n = v.len();
    match kind {
        LineKind::Point => {
            after[0] = counts[0] + 1;
            after
        }
        LineKind::Edge => {
            after[1] = counts[1] + 1;
            after
        }
        LineKind::Face => {
            after[4] = counts[4] + 1;
            if n < 3 {
                return after;
            }
            let more = count_wires(&v[3..n]);
            after[2] = counts[2] + more.uses;
            after[3] = counts[3] + more.wires;
            after
        }
        LineKind::Shell => {
            after[5] = counts[5] + 1;
            if n < 2 {
                return after;
            }
            after[6] = counts[6] + (n - 2);
            after
        }
        _ => after,
    }
}

// Adds the label of a point.
fn add_point(v: &[u64], t: &mut Tables)
    requires { (3 ≤ length v.now) × (count_faults (summed (count_table t.old) (counts_of (point_parts v.now))) ≡ []) }
    ensures { (spans : List Float) → held t.new spans ≡ added (held t.old spans) (point_parts v.now) }
{
    tables_known(t);
    let counts = counts_in(t);
    let n = counts[0];
    store_label(t, n, label_of(v[2]));
    store_count(t, 0, (n + 1) as u16);
}

// The edge of a line.
fn edge_of(v: &[u64]) -> Edge
    requires { 8 ≤ length v.now }
    ensures { result ≡ edge_of v.now }
{
    let front = VertexID(saturated(v[2]));
    let back = VertexID(saturated(v[4]));
    let t0 = f64_of(v[6]);
    let t1 = f64_of(v[7]);
    Edge::new_unchecked(front, back, Curve { t0, t1 })
}

// Adds an edge.
fn add_edge(v: &[u64], t: &mut Tables, spans: &mut Spans)
    requires { (8 ≤ length v.now) × (count_faults (summed (count_table t.old) (counts_of (edge_parts v.now))) ≡ []) }
    ensures { held t.new spans.new ≡ added (held t.old spans.old) (edge_parts v.now) }
{
    tables_known(t);
    let counts = counts_in(t);
    let n = counts[1];
    store_edge(t, spans, n, edge_of(v));
    store_count(t, 1, (n + 1) as u16);
}

// Stores the wires of a face, uses from place `used` on and lengths from place `wired` on, and returns how many
// there are: v are uses, and 65,536 where a wire begins.
fn add_wires(v: &[u64], t: &mut Tables, used: usize, wired: usize) -> Tail
    requires { (used + length (flat (wire_lists v.now)) ≤ 4096) × (wired + length (wire_lists v.now) ≤ 1024) }
    ensures { (result.uses ≡ length (flat (wire_lists v.now))) × (result.wires ≡ length (wire_lists v.now)) × ((spans : List Float) → held t.new spans ≡ with_wires (with_uses (held t.old spans) (sets (held t.old spans).uses used (flat (wire_lists v.now)))) (sets (held t.old spans).wires wired (wire_lengths (wire_lists v.now)))) }
{
    tables_known(t);
    let mut u = used;
    let mut w = wired;
    let mut size: usize = 0;
    for x in v {
        if *x == 65536 {
            t[WIRES + w] = 0;
            w += 1;
            size = 0;
        } else if w > wired {
            t[USES + u] = saturated(*x);
            u += 1;
            size += 1;
            t[WIRES + (w - 1)] = small_length(size);
        }
    }
    Tail {
        uses: u - used,
        wires: w - wired,
    }
}

// Adds a face and its wires.
fn add_face(v: &[u64], t: &mut Tables)
    requires { (3 ≤ length v.now) × (count_faults (summed (count_table t.old) (counts_of (face_parts v.now))) ≡ []) }
    ensures { (spans : List Float) → held t.new spans ≡ added (held t.old spans) (face_parts v.now) }
{
    tables_known(t);
    let counts = counts_in(t);
    let n = counts[4];
    let more = add_wires(&v[3..v.len()], t, counts[2], counts[3]);
    let f = Face {
        wires: small_length(more.wires),
        surface: saturated(v[2]),
    };
    store_face(t, n, f);
    store_count(t, 4, (n + 1) as u16);
    store_count(t, 2, (counts[2] + more.uses) as u16);
    store_count(t, 3, (counts[3] + more.wires) as u16);
}

// Adds a shell and its listings.
fn add_shell(v: &[u64], t: &mut Tables)
    requires { (2 ≤ length v.now) × (count_faults (summed (count_table t.old) (counts_of (shell_parts v.now))) ≡ []) }
    ensures { (spans : List Float) → held t.new spans ≡ added (held t.old spans) (shell_parts v.now) }
{
    tables_known(t);
    let counts = counts_in(t);
    let n = counts[5];
    let more = v.len() - 2;
    t[SHELLS + n] = small_length(more);
    put_saturated(&v[2..v.len()], t, LISTINGS + counts[6]);
    store_count(t, 5, (n + 1) as u16);
    store_count(t, 6, (counts[6] + more) as u16);
}

// Adds what a line of this kind with these values says to the store.
pub fn add_values(kind: LineKind, v: &[u64], t: &mut Tables, spans: &mut Spans)
    requires { (needed_words kind ≤ length v.now) × (count_faults (summed (count_table t.old) (counts_of (parts_of kind v.now))) ≡ []) }
    ensures { held t.new spans.new ≡ added (held t.old spans.old) (parts_of kind v.now) }
{
    tables_known(t);
    match kind {
        LineKind::Point => add_point(v, t),
        LineKind::Edge => add_edge(v, t, spans),
        LineKind::Face => add_face(v, t),
        LineKind::Shell => add_shell(v, t),
        _ => {}
    }
}
