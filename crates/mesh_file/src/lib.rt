// The pattern file of a mesh.
#![tactic(auto)]

ghost use Rattle.std.specs.Prelude.{List, [], ◌++◌, ◌∷◌, ◌≡◌, ◌≤◌, ℕ, Float};
ghost use Rattle.mesh.specs.Mesh.{Mesh, imported, imported_in};
ghost use Rattle.mesh_draw.specs.Kept.{Kept};
ghost use Rattle.mesh_file.specs.Judging.{Judged, answer_of, filled_counts, with_listed, with_rest};
ghost use Rattle.mesh_read.specs.Pieces.{HasRead};
ghost use Rattle.pattern.specs.Checks.{count_faults};
ghost use Rattle.store.specs.Columns.{with_counts};
ghost use Rattle.store.specs.Store.{held};

use errors::CallError;
use face::Face;
use mesh::MeshError;
use mesh_draw::Filled;
use mesh_edges::{INDEX, Index};
use mesh_read::{end_line, step};
use mesh_words::Reader;
use pattern::{Counts, check_counts};
use store::{
    LISTINGS, SHELLS, SPANS, Spans, TABLES, Tables, store_count, store_face, tables_known,
};
use store_check::check_records;
use store_write::{NoSpace, put_file};

// The number of records of each body: each face has one wire and is listed once, in one shell.
fn counts_of(f: Filled) -> Counts
    ensures { result ≡ filled_counts f }
{
    [f.points, f.edges, f.uses, f.faces, f.faces, 1, f.faces]
}

// Stores n faces with one wire and surface 0 each, and a listing of each with +.
fn put_faces(t: &mut Tables, n: usize)
    requires { n ≤ 256 }
    ensures { (spans : List Float) → held t.new spans ≡ with_listed (held t.old spans) n }
{
    for k in 0..n {
        store_face(
            t,
            k,
            Face {
                wires: 1,
                surface: 0,
            },
        );
        tables_known(t);
        t[LISTINGS + k] = k as u16;
    }
}

// Stores the counts.
fn put_counts(t: &mut Tables, counts: Counts)
    requires { count_faults counts ≡ [] }
    ensures { (spans : List Float) → held t.new spans ≡ with_counts (held t.old spans) counts }
{
    tables_known(t);
    for (b, n) in counts.iter().enumerate() {
        store_count(t, b, *n as u16);
    }
}

// Stores what stands beside points, edges, uses and wires: faces, one shell of so many listings, the counts.
fn put_rest(t: &mut Tables, counts: Counts)
    requires { count_faults counts ≡ [] }
    ensures { (spans : List Float) → held t.new spans ≡ with_rest (held t.old spans) counts }
{
    let n = counts[4];
    put_faces(t, n);
    tables_known(t);
    t[SHELLS] = n as u16;
    put_counts(t, counts);
}

// The answer of the writer, as one of an import.
fn answer_of(w: Result<usize, CallError<NoSpace>>) -> Result<usize, CallError<MeshError>>
    ensures { result ≡ answer_of w }
{
    match w {
        Ok(n) => Ok(n),
        Err(CallError::Unread(r)) => Err(CallError::Unread(r)),
        Err(CallError::Refused(e)) => Err(MeshError::NoSpace(e.needed).into()),
    }
}

// The answer for the mesh that the tables hold, after its last line.
fn judge(
    f: Filled,
    t: &mut Tables,
    spans: &Spans,
    out: &mut [u8],
) -> Result<usize, CallError<MeshError>>
    ensures { (m : Mesh) (index : List ℕ) → Kept m [] f (held t.old spans.now) index → Judged m out.old result out.new × Kept m [] f (held t.new spans.now) index }
{
    tables_known(t);
    let counts = counts_of(f);
    check_counts(counts)?;
    put_rest(t, counts);
    check_records(t, spans)?;
    answer_of(put_file(t, spans, out))
}

// The answer of an import, and the reader after its last line.
#[derive(Clone, Copy)]
pub struct Finished {
    pub answer: Result<usize, CallError<MeshError>>,
    pub reader: Reader,
}

// The mesh ends. Writes the file of its pattern, or answers what is wrong with it.
pub fn finish(
    from: Reader,
    t: &mut Tables,
    spans: &mut Spans,
    index: &mut Index,
    out: &mut [u8],
) -> Finished
    ensures { (s : List ℕ) → HasRead s from (held t.old spans.old) index.old → (result.answer ≡ imported s out.old) × (out.new ≡ imported_in s out.old) × HasRead (s ++ (10 ∷ [])) result.reader (held t.new spans.new) index.new }
{
    let reader = end_line(from, t, spans, index);
    if let Some(fault) = reader.place.fault() {
        return Finished {
            answer: Err(MeshError::Line(fault, reader.line).into()),
            reader,
        };
    }
    let answer = judge(reader.filled, t, spans, out);
    Finished { answer, reader }
}

// Writes the pattern file of a mesh, or answers what is wrong with it.
pub fn import_mesh(mesh: &[u8], out: &mut [u8]) -> Result<usize, CallError<MeshError>>
    ensures { (result ≡ imported mesh.now out.old) × (out.new ≡ imported_in mesh.now out.old) }
{
    let mut t = [0u16; TABLES];
    let mut spans = [0.0; SPANS];
    let mut index = [0u16; INDEX];
    let read = step(Reader::new(), mesh, &mut t, &mut spans, &mut index);
    let end = finish(read, &mut t, &mut spans, &mut index, out);
    end.answer
}
