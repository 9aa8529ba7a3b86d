// A pattern file read into the store.
#![tactic(auto)]

ghost use Rattle.std.specs.Prelude.{◌≡◌, List, [], ℕ, ◌+◌, ◌*◌, ◌≤◌, Float, length};
ghost use Rattle.std.specs.Float.{binary64};
ghost use Rattle.std.specs.Float.Ieee.{of_bits};
ghost use Rattle.std.proofs.lemmas.List.Edits.{sets};
ghost use Rattle.errors.specs.Faults.{first as firstFault};
ghost use Rattle.lists.specs.Lists.{tabulate};
ghost use Rattle.words.specs.Words.{le16, le32, le64};
ghost use Rattle.pattern.specs.Checks.{count_faults};
ghost use Rattle.pattern_file.specs.File.{edge_at, face_at, file_content, file_faults, table_faults};
ghost use Rattle.store.specs.Store.{held};
ghost use Rattle.store_read.specs.Loading.{loaded};
ghost use Rattle.pattern.specs.Contents.{stored_in};
ghost use Rattle.store.specs.Columns.{with_counts, with_edges, with_faces, with_points};

use edge::{Curve, Edge};
use errors::Refusal;
use face::Face;
use pattern::Counts;
use pattern_file::starts_of;
use pattern_table::{check_table, counts_of};
use store::{
    LISTINGS, SHELLS, Spans, Tables, USES, WIRES, store_count, store_edge, store_face, store_label,
    tables_known,
};
use store_check::check_records;
use vertex::VertexID;
use words::{u16_at, u32_at, u64_at};

// The f64 with these bits; the bits of a NaN give the NaN.
pub fn f64_of(bits: u64) -> f64
    ensures { result ≡ of_bits binary64 bits }
{
    if bits % 0x8000000000000000 > 0x7FF0000000000000 {
        return 0.0 / 0.0;
    }
    f64::from_bits(bits)
}

// The f64 whose bits stand at `at`.
fn f64_at(s: &[u8], at: usize) -> f64
    requires { at + 8 ≤ length s.now }
    ensures { result ≡ of_bits binary64 (le64 s.now at) }
{
    f64_of(u64_at(s, at))
}

fn edge_at(s: &[u8], at: usize) -> Edge
    requires { at + 20 ≤ length s.now }
    ensures { result ≡ edge_at s.now at }
{
    let front = VertexID(u16_at(s, at));
    let back = VertexID(u16_at(s, at + 2));
    let t0 = f64_at(s, at + 4);
    let t1 = f64_at(s, at + 12);
    Edge::new_unchecked(front, back, Curve { t0, t1 })
}

fn face_at(s: &[u8], at: usize) -> Face
    requires { at + 4 ≤ length s.now }
    ensures { result ≡ face_at s.now at }
{
    Face {
        wires: u16_at(s, at),
        surface: u16_at(s, at + 2),
    }
}

// Reads n numbers to the tables, from `to` on.
fn read_numbers(s: &[u8], at: usize, n: usize, t: &mut Tables, to: usize)
    requires { (at + 2 * n ≤ length s.now) × (to + n ≤ 12312) }
    ensures { (length t.old ≡ 12312) × (t.new ≡ sets t.old to (tabulate n (λ (k : ℕ). le16 s.now (at + 2 * k)))) }
{
    tables_known(t);
    for k in 0..n {
        t[to + k] = u16_at(s, at + 2 * k);
    }
}

fn read_counts(counts: Counts, t: &mut Tables)
    requires { count_faults counts ≡ [] }
    ensures { (spans : List Float) → held t.new spans ≡ with_counts (held t.old spans) counts }
{
    tables_known(t);
    for (b, count) in counts.iter().enumerate() {
        store_count(t, b, *count as u16);
    }
}

// One loop for each kind of record: a function that is handed a record's reader, its place in the store and its
// definition would say no less.
fn read_labels(s: &[u8], at: usize, n: usize, t: &mut Tables)
    requires { (at + 4 * n ≤ length s.now) × (n ≤ 2048) }
    ensures { (spans : List Float) → held t.new spans ≡ with_points (held t.old spans) (sets (held t.old spans).points 0 (tabulate n (λ (k : ℕ). le32 s.now (at + 4 * k)))) }
{
    for k in 0..n {
        store_label(t, k, u32_at(s, at + 4 * k));
    }
}

fn read_edges(s: &[u8], at: usize, n: usize, t: &mut Tables, spans: &mut Spans)
    requires { (at + 20 * n ≤ length s.now) × (n ≤ 1024) }
    ensures { held t.new spans.new ≡ with_edges (held t.old spans.old) (sets (held t.old spans.old).edges 0 (tabulate n (λ (k : ℕ). edge_at s.now (at + 20 * k)))) }
{
    for k in 0..n {
        store_edge(t, spans, k, edge_at(s, at + 20 * k));
    }
}

fn read_faces(s: &[u8], at: usize, n: usize, t: &mut Tables)
    requires { (at + 4 * n ≤ length s.now) × (n ≤ 256) }
    ensures { (spans : List Float) → held t.new spans ≡ with_faces (held t.old spans) (sets (held t.old spans).faces 0 (tabulate n (λ (k : ℕ). face_at s.now (at + 4 * k)))) }
{
    for k in 0..n {
        store_face(t, k, face_at(s, at + 4 * k));
    }
}

// Reads a file whose contents table is right. Entries past a count keep what they held.
fn read_content(s: &[u8], t: &mut Tables, spans: &mut Spans)
    requires { table_faults s.now ≡ [] }
    ensures { held t.new spans.new ≡ stored_in (held t.old spans.old) (file_content s.now) }
{
    let counts = counts_of(s);
    let starts = starts_of(counts);
    read_counts(counts, t);
    read_labels(s, starts[0], counts[0], t);
    read_edges(s, starts[1], counts[1], t, spans);
    read_numbers(s, starts[2], counts[2], t, USES);
    read_numbers(s, starts[3], counts[3], t, WIRES);
    read_faces(s, starts[4], counts[4], t);
    read_numbers(s, starts[5], counts[5], t, SHELLS);
    read_numbers(s, starts[6], counts[6], t, LISTINGS);
}

// Reads a file into the store, unless its contents table is wrong; then the store is as it was. The
// checks of what was read are those of the store.
pub fn load(s: &[u8], t: &mut Tables, spans: &mut Spans) -> Result<(), Refusal>
    ensures value { result ≡ firstFault (table_faults s.now) }
    ensures spans_after { held t.new spans.new ≡ loaded (held t.old spans.old) s.now }
{
    check_table(s)?;
    read_content(s, t, spans);
    Ok(())
}

// Reads a file into the store, and checks it.
pub fn read(s: &[u8], t: &mut Tables, spans: &mut Spans) -> Result<(), Refusal>
    ensures value { result ≡ firstFault (file_faults s.now) }
    ensures spans_after { held t.new spans.new ≡ loaded (held t.old spans.old) s.now }
{
    tables_known(t);
    load(s, t, spans)?;
    check_records(t, spans)
}
