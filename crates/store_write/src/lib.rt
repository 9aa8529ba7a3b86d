// The file of a pattern in the store.
#![tactic(auto)]

ghost use Rattle.std.specs.Prelude.{◌≡◌, [], map, ◌++◌, true, ℕ, ◌+◌, ◌*◌, ◌≤◌, ◌<◌, drop, get_or, length, take};
ghost use Rattle.std.proofs.lemmas.List.Edits.{sets};
ghost use Rattle.lists.specs.Lists.{flat, tabulate};
ghost use Rattle.words.specs.Words.{bytes16, bytes32};
ghost use Rattle.edge.specs.Edges.{is_span};
ghost use Rattle.pattern.specs.Checks.{count_faults, pattern_faults};
ghost use Rattle.pattern.specs.Contents.{content};
ghost use Rattle.pattern_file.specs.File.{start_of, edge_bytes, face_bytes, file_bytes, table_bytes};
ghost use Rattle.store.specs.Store.{count_table, edge_in, face_in, held, label_in};
ghost use Rattle.store_write.specs.Writing.{write_answer, write_bytes, written, written_bytes};

use edge::Edge;
use errors::CallError;
use face::Face;
use pattern::{BODIES, Counts, Starts};
use pattern_file::starts_of;
use store::{Spans, Tables, counts_in, edge_in, face_in, label_in, lists_in, tables_known};
use store_check::check;
use words::{put_u16, put_u32, put_u64};

// 17: the slice is shorter than the file, which needs this length.
#[derive(Clone, Copy)]
pub struct NoSpace {
    pub needed: usize,
}

// Writes numbers, of two bytes each, from `at` on.
fn put_u16s(out: &mut [u8], at: usize, ns: &[u16])
    requires { at + 2 * length ns.now ≤ length out.old }
    ensures { out.new ≡ sets out.old at (flat (map bytes16 ns.now)) }
{
    for (k, x) in ns.iter().enumerate() {
        put_u16(out, at + 2 * k, *x);
    }
}

// One loop for each kind of record: a function that is handed a record's reader, its writer and its definition would
// say no less.

// Writes the first n labels, of four bytes each, from `at` on.
fn put_labels(out: &mut [u8], at: usize, t: &Tables, n: usize)
    requires { (at + 4 * n ≤ length out.old) × (n ≤ 2048) }
    ensures { out.new ≡ sets out.old at (flat (map bytes32 (take n (tabulate 2048 (label_in t.now))))) }
{
    for k in 0..n {
        put_u32(out, at + 4 * k, label_in(t, k));
    }
}

// Writes an edge from `at` on: its points, then the ends of its curve.
fn put_edge(out: &mut [u8], at: usize, e: Edge)
    requires { (at + 20 ≤ length out.old) × (is_span e.curve ≡ true) }
    ensures { out.new ≡ sets out.old at (edge_bytes e) }
{
    put_u16(out, at, e.front.0);
    put_u16(out, at + 2, e.back.0);
    put_u64(out, at + 4, f64::to_bits(e.curve.t0));
    put_u64(out, at + 12, f64::to_bits(e.curve.t1));
}

// Writes the first n edges from `at` on.
fn put_edges(out: &mut [u8], at: usize, t: &Tables, spans: &Spans, n: usize)
    requires n_in_bounds { (at + 20 * n ≤ length out.old) × (n ≤ 1024) }
    requires by_index { (k : ℕ) → k < n → is_span (edge_in t.now spans.now k).curve ≡ true }
    ensures { out.new ≡ sets out.old at (flat (map edge_bytes (take n (tabulate 1024 (edge_in t.now spans.now))))) }
{
    for k in 0..n {
        put_edge(out, at + 20 * k, edge_in(t, spans, k));
    }
}

// Writes a face from `at` on: its number of wires, then its surface.
fn put_face(out: &mut [u8], at: usize, f: Face)
    requires { at + 4 ≤ length out.old }
    ensures { out.new ≡ sets out.old at (face_bytes f) }
{
    put_u16(out, at, f.wires);
    put_u16(out, at + 2, f.surface);
}

// Writes the first n faces from `at` on.
fn put_faces(out: &mut [u8], at: usize, t: &Tables, n: usize)
    requires { (at + 4 * n ≤ length out.old) × (n ≤ 256) }
    ensures { out.new ≡ sets out.old at (flat (map face_bytes (take n (tabulate 256 (face_in t.now))))) }
{
    for k in 0..n {
        put_face(out, at + 4 * k, face_in(t, k));
    }
}

// Writes an entry of the contents table from `at` on.
fn put_entry(out: &mut [u8], at: usize, offset: usize, count: usize)
    requires { (at + 8 ≤ length out.old) × (offset < 4294967296) × (count < 4294967296) }
    ensures { out.new ≡ sets out.old at (bytes32 offset ++ bytes32 count) }
{
    put_u32(out, at, offset as u32);
    put_u32(out, at + 4, count as u32);
}

// Writes the contents table of a file with these counts, whose bodies have these starts.
fn put_table(out: &mut [u8], counts: Counts, starts: Starts)
    requires { (56 ≤ length out.old) × (count_faults counts ≡ []) × (starts ≡ tabulate 8 (start_of counts)) }
    ensures { out.new ≡ sets out.old 0 (table_bytes counts) }
{
    for b in 0..BODIES {
        put_entry(out, 8 * b, starts[b], counts[b]);
    }
}

// Writes the contents table, then the bodies from their starts on.
fn write_content(t: &Tables, spans: &Spans, starts: Starts, out: &mut [u8])
    requires spans_value { pattern_faults (held t.now spans.now) ≡ [] }
    requires t_len { (length t.now ≡ 12312) × (starts ≡ tabulate 8 (start_of (count_table t.now))) × (get_or starts 7 0 ≤ length out.old) }
    ensures { out.new ≡ file_bytes (content (held t.now spans.now)) ++ drop (length (file_bytes (content (held t.now spans.now)))) out.old }
{
    let counts = counts_in(t);
    let lists = lists_in(t);
    put_table(out, counts, starts);
    put_labels(out, starts[0], t, counts[0]);
    put_edges(out, starts[1], t, spans, counts[1]);
    put_u16s(out, starts[2], lists.uses);
    put_u16s(out, starts[3], lists.wires);
    put_faces(out, starts[4], t, counts[4]);
    put_u16s(out, starts[5], lists.shells);
    put_u16s(out, starts[6], lists.listings);
}

// Writes the file of a pattern without fault: 17 if the slice is shorter than the file.
pub fn put_file(t: &Tables, spans: &Spans, out: &mut [u8]) -> Result<usize, CallError<NoSpace>>
    requires { pattern_faults (held t.now spans.now) ≡ [] }
    ensures { (result ≡ write_answer [] (file_bytes (content (held t.now spans.now))) out.old) × (out.new ≡ write_bytes [] (file_bytes (content (held t.now spans.now))) out.old) }
{
    tables_known(t);
    let starts = starts_of(counts_in(t));
    if out.len() < starts[BODIES] {
        return Err(CallError::Refused(NoSpace {
            needed: starts[BODIES],
        }));
    }
    write_content(t, spans, starts, out);
    Ok(starts[BODIES])
}

// Writes the file of a pattern: the reading checks first, then 17 if the slice is shorter than the file.
pub fn write(t: &Tables, spans: &Spans, out: &mut [u8]) -> Result<usize, CallError<NoSpace>>
    ensures { (result ≡ written (held t.now spans.now) out.old) × (out.new ≡ written_bytes (held t.now spans.now) out.old) }
{
    check(t, spans)?;
    put_file(t, spans, out)
}
