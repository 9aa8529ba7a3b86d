// The library for clients: every callable part on a pattern file in memory. include/wuzsanget.h says what each takes,
// returns and leaves behind; the crate wuzsanget_c exports each with C's calling convention.
#![tactic(auto)]

ghost use Rattle.std.specs.Prelude.{◌≡◌, List, [], ◌++◌, ◌∷◌, map, ℕ, length};
ghost use Rattle.std.proofs.lemmas.List.Edits.{sets};
ghost use Rattle.lists.specs.Lists.{flat};
ghost use Rattle.file_concat.specs.FileConcat.{file_concat, file_concat_bytes};
ghost use Rattle.file_cut.specs.FileCut.{file_cut, file_cut_bytes};
ghost use Rattle.draft_faults.specs.FaultLines.{made_text};
ghost use Rattle.draft_text.specs.TextPattern.{made, made_in, text_file};
ghost use Rattle.file_remove.specs.FileRemove.{file_remove, file_remove_bytes};
ghost use Rattle.file_vertex.specs.FileVertex.{file_vertex, file_vertex_bytes};
ghost use Rattle.file_face_edits.specs.FileFaceEdits.{file_add, file_add_out, file_cut_face, file_cut_face_out, file_glue, file_glue_out};
ghost use Rattle.file_reports.specs.FileReports.{file_check, file_components, file_components_out, file_condition, file_connected, file_counts_out, file_openings, file_openings_out, file_outline, FilePromised, file_singular, file_singular_out, file_solid, file_written, file_written_bytes};
ghost use Rattle.jobs.specs.Jobs.{line_length, line_out, line_text};
ghost use Rattle.mesh.specs.Mesh.{imported, imported_in};
ghost use Rattle.mesh_answers.specs.ImportLines.{import_values};
ghost use Rattle.mesh_hold.specs.MeshTheorems.{ImportPromised};
ghost use Rattle.mesh_read.specs.Pieces.{HasRead};
ghost use Rattle.mesh_state.specs.State.{reader_in};
ghost use Rattle.pattern.specs.Contents.{Pattern};
ghost use Rattle.report_text.specs.Report.{report_of, ReportPromised};
ghost use Rattle.show_text.specs.PatternText.{file_text};
ghost use Rattle.store.specs.Store.{held};
ghost use Rattle.text_calls.specs.TextCalls.{draft_answer};
ghost use Rattle.words.specs.Words.{short};

use answers::Answer;
use file_concat::file_concat;
use file_cut::file_cut;
use file_face_edits::{file_add, file_cut_by_edge, file_cut_by_wire, file_glue};
use file_remove::file_remove;
use file_reports::{
    check_file, file_components, file_condition, file_connected, file_counts, file_openings,
    file_outline, file_singular, file_solid, rewrite_file,
};
use file_vertex::file_add_vertex;
use jobs::{Job, run};
use mesh_calls::{finish_import, import_file, start_import, step_import};
use mesh_edges::Index;
use mesh_state::Numbers;
use pattern::{BODIES, LONGEST};
use report_text::report;
use show_text::show;
use store::{Spans, Tables};
use text_calls::draft;
use words::saturated;

// A number as a client gives it, as one of 16 bits. Above 65,535 it names nothing, as 65,535 does: no pattern
// has a point, an edge, a use or a face of that number.
fn named(n: usize) -> u16
    ensures { result ≡ short n }
{
    saturated(n as u64)
}

// WUZSANGET_VERSION of include/wuzsanget.h.
pub fn wuzsanget_version() -> usize
    ensures { result ≡ 2 }
{
    2
}

pub fn wuzsanget_read(file: &[u8]) -> Answer
    ensures { result ≡ file_check file.now }
{
    check_file(file)
}

pub fn wuzsanget_counts(file: &[u8], counts: &mut [u16; BODIES]) -> Answer
    ensures value { result ≡ file_check file.now }
    ensures counts_after { counts.new ≡ sets counts.old 0 (file_counts_out file.now) }
{
    file_counts(file, counts)
}

pub fn wuzsanget_outline(file: &[u8], wire: usize) -> Answer
    ensures { result ≡ file_outline file.now wire }
{
    file_outline(file, wire)
}

pub fn wuzsanget_write(file: &[u8], out: &mut [u8]) -> Answer
    ensures value { result ≡ file_written file.now out.old }
    ensures out_after { out.new ≡ file_written_bytes file.now out.old }
{
    rewrite_file(file, out)
}

pub fn wuzsanget_report(file: &[u8], text: &mut [u8; 1126400]) -> usize
    ensures value { result ≡ length (report_of file.now) }
    ensures text_after { text.new ≡ sets text.old 0 (report_of file.now) }
    ensures report_promised { ReportPromised file.now }
{
    report(file, text)
}

pub fn wuzsanget_show(file: &[u8], text: &mut [u8; 262144]) -> usize
    ensures { (text.new ≡ sets text.old 0 (file_text file.now)) × (result ≡ length (file_text file.now)) }
{
    show(file, text)
}

pub fn wuzsanget_draft(text: &[u8], out: &mut [u8; LONGEST], said: &mut [u8; 256]) -> Answer
    ensures value { result ≡ draft_answer (made text.now) }
    ensures out_after { (out.new ≡ made_in (made text.now) (text_file text.now) out.old) × (said.new ≡ sets said.old 0 (made_text (made text.now))) }
{
    draft(text, out, said)
}

pub fn wuzsanget_import(mesh: &[u8], out: &mut [u8]) -> Answer
    ensures value { (result ≡ import_values (imported mesh.now out.old)) × (out.new ≡ imported_in mesh.now out.old) }
    ensures import_promised { ImportPromised mesh.now }
{
    import_file(mesh, out)
}

pub fn wuzsanget_import_start(numbers: &mut Numbers, index: &mut Index)
    ensures { (p : Pattern) → HasRead [] (reader_in numbers.new) p index.new }
{
    start_import(numbers, index)
}

pub fn wuzsanget_import_step(
    numbers: &mut Numbers,
    tables: &mut Tables,
    spans: &mut Spans,
    index: &mut Index,
    piece: &[u8],
)
    ensures { (s : List ℕ) → HasRead s (reader_in numbers.old) (held tables.old spans.old) index.old → HasRead (s ++ piece.now) (reader_in numbers.new) (held tables.new spans.new) index.new }
{
    step_import(numbers, tables, spans, index, piece)
}

pub fn wuzsanget_import_finish(
    numbers: &mut Numbers,
    tables: &mut Tables,
    spans: &mut Spans,
    index: &mut Index,
    out: &mut [u8],
) -> Answer
    ensures { (s : List ℕ) → HasRead s (reader_in numbers.old) (held tables.old spans.old) index.old → (result ≡ import_values (imported s out.old)) × (out.new ≡ imported_in s out.old) × HasRead (s ++ (10 ∷ [])) (reader_in numbers.new) (held tables.new spans.new) index.new }
{
    finish_import(numbers, tables, spans, index, out)
}

pub fn wuzsanget_shell_condition(file: &[u8], shell: usize) -> Answer
    ensures { result ≡ file_condition file.now shell }
{
    file_condition(file, shell)
}

pub fn wuzsanget_extract_boundaries(
    file: &[u8],
    shell: usize,
    uses: &mut [u16; 2048],
    lengths: &mut [u16; 2048],
) -> Answer
    ensures value { result ≡ file_openings file.now shell }
    ensures uses_after { uses.new ≡ sets uses.old 0 (flat (file_openings_out file.now shell)) }
    ensures lengths_after { lengths.new ≡ sets lengths.old 0 (map length (file_openings_out file.now shell)) }
    ensures file_promised { FilePromised file.now shell }
{
    file_openings(file, shell, uses, lengths)
}

pub fn wuzsanget_is_connected(file: &[u8], shell: usize) -> Answer
    ensures { result ≡ file_connected file.now shell }
{
    file_connected(file, shell)
}

pub fn wuzsanget_connected_components(
    file: &[u8],
    shell: usize,
    listings: &mut [u16; 512],
    lengths: &mut [u16; 512],
) -> Answer
    ensures value { result ≡ file_components file.now shell }
    ensures listings_after { listings.new ≡ sets listings.old 0 (flat (file_components_out file.now shell)) }
    ensures lengths_after { lengths.new ≡ sets lengths.old 0 (map length (file_components_out file.now shell)) }
{
    file_components(file, shell, listings, lengths)
}

pub fn wuzsanget_singular_vertices(file: &[u8], shell: usize, points: &mut [u16; 2048]) -> Answer
    ensures value { result ≡ file_singular file.now shell }
    ensures points_after { points.new ≡ sets points.old 0 (file_singular_out file.now shell) }
{
    file_singular(file, shell, points)
}

pub fn wuzsanget_solid(file: &[u8]) -> Answer
    ensures { result ≡ file_solid file.now }
{
    file_solid(file)
}

pub fn wuzsanget_cut_edge(
    file: &[u8],
    shell: usize,
    edge: usize,
    point: usize,
    parameter: u64,
    out: &mut [u8],
) -> Answer
    ensures value { result ≡ file_cut file.now shell (short edge) (short point) parameter out.old }
    ensures out_after { out.new ≡ file_cut_bytes file.now shell (short edge) (short point) parameter out.old }
{
    file_cut(file, shell, named(edge), named(point), parameter, out)
}

pub fn wuzsanget_remove_vertex(file: &[u8], shell: usize, point: usize, out: &mut [u8]) -> Answer
    ensures value { result ≡ file_remove file.now shell (short point) out.old }
    ensures out_after { out.new ≡ file_remove_bytes file.now shell (short point) out.old }
{
    file_remove(file, shell, named(point), out)
}

pub fn wuzsanget_concat(file: &[u8], a: usize, b: usize, out: &mut [u8]) -> Answer
    ensures value { result ≡ file_concat file.now (short a) (short b) out.old }
    ensures out_after { out.new ≡ file_concat_bytes file.now (short a) (short b) out.old }
{
    file_concat(file, named(a), named(b), out)
}

pub fn wuzsanget_add_vertex(file: &[u8], label: usize, out: &mut [u8]) -> Answer
    ensures value { result ≡ file_vertex file.now label out.old }
    ensures out_after { out.new ≡ file_vertex_bytes file.now label out.old }
{
    file_add_vertex(file, label, out)
}

pub fn wuzsanget_add_boundary(
    file: &[u8],
    face: usize,
    wire: &[u16],
    uses: &mut [u16],
    lengths: &mut [u16],
) -> Answer
    ensures value { result ≡ file_add file.now (short face) wire.now (length uses.old) (length lengths.old) }
    ensures uses_after { uses.new ≡ sets uses.old 0 (flat (file_add_out file.now (short face) wire.now (length uses.old) (length lengths.old))) }
    ensures lengths_after { lengths.new ≡ sets lengths.old 0 (map length (file_add_out file.now (short face) wire.now (length uses.old) (length lengths.old))) }
{
    file_add(file, named(face), wire, uses, lengths)
}

pub fn wuzsanget_cut_by_wire(
    file: &[u8],
    face: usize,
    wire: &[u16],
    uses: &mut [u16],
    lengths: &mut [u16],
) -> Answer
    ensures value { result ≡ file_cut_face file.now (short face) wire.now (length uses.old) (length lengths.old) }
    ensures uses_after { uses.new ≡ sets uses.old 0 (flat (file_cut_face_out file.now (short face) wire.now (length uses.old) (length lengths.old))) }
    ensures lengths_after { lengths.new ≡ sets lengths.old 0 (map length (file_cut_face_out file.now (short face) wire.now (length uses.old) (length lengths.old))) }
{
    file_cut_by_wire(file, named(face), wire, uses, lengths)
}

pub fn wuzsanget_cut_by_edge(
    file: &[u8],
    face: usize,
    edge_use: usize,
    uses: &mut [u16],
    lengths: &mut [u16],
) -> Answer
    ensures value { result ≡ file_cut_face file.now (short face) (short edge_use ∷ []) (length uses.old) (length lengths.old) }
    ensures uses_after { uses.new ≡ sets uses.old 0 (flat (file_cut_face_out file.now (short face) (short edge_use ∷ []) (length uses.old) (length lengths.old))) }
    ensures lengths_after { lengths.new ≡ sets lengths.old 0 (map length (file_cut_face_out file.now (short face) (short edge_use ∷ []) (length uses.old) (length lengths.old))) }
{
    file_cut_by_edge(file, named(face), named(edge_use), uses, lengths)
}

pub fn wuzsanget_glue(
    file: &[u8],
    face: usize,
    other: usize,
    uses: &mut [u16],
    lengths: &mut [u16],
) -> Answer
    ensures value { result ≡ file_glue file.now (short face) (short other) (length uses.old) (length lengths.old) }
    ensures uses_after { uses.new ≡ sets uses.old 0 (flat (file_glue_out file.now (short face) (short other) (length uses.old) (length lengths.old))) }
    ensures lengths_after { lengths.new ≡ sets lengths.old 0 (map length (file_glue_out file.now (short face) (short other) (length uses.old) (length lengths.old))) }
{
    file_glue(file, named(face), named(other), uses, lengths)
}

pub fn wuzsanget_edit(
    line: &[u8],
    file: &[u8],
    out: &mut [u8; LONGEST],
    text: &mut [u8; 65536],
) -> Job
    ensures text_after { (text.new ≡ sets text.old 0 (line_text line.now file.now out.old)) × (result.text ≡ length (line_text line.now file.now out.old)) }
    ensures out_after { (out.new ≡ line_out line.now file.now out.old) × (result.file ≡ line_length line.now file.now out.old) }
{
    run(line, file, out, text)
}
