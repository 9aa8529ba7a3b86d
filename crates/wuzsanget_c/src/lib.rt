// The static library for clients in C and its like: each function of the library wuzsanget, under its name and with its
// clauses, with C's calling convention. include/wuzsanget.h declares them. A slice is passed as a pointer and a length.
#![tactic(auto)]

ghost use Rattle.std.specs.Prelude.{◌≡◌, List, [], ◌++◌, ◌∷◌, map, ℕ, length};
ghost use Rattle.std.proofs.lemmas.List.Edits.{sets};
ghost use Rattle.lists.specs.Lists.{flat};
ghost use Rattle.file_concat.specs.FileConcat.{file_concat, file_concat_bytes};
ghost use Rattle.file_cut.specs.FileCut.{file_cut, file_cut_bytes};
ghost use Rattle.draft_faults.specs.FaultLines.{made_text};
ghost use Rattle.draft_text.specs.TextPattern.{made, made_in, text_file};
ghost use Rattle.file_remove.specs.FileRemove.{file_remove, file_remove_bytes};
ghost use Rattle.file_vertex.specs.FileVertex.{file_vertex, file_vertex_bytes};
ghost use Rattle.file_face_edits.specs.FileFaceEdits.{file_add, file_add_out, file_cut_face, file_cut_face_out, file_glue, file_glue_out};
ghost use Rattle.file_reports.specs.FileReports.{file_check, file_components, file_components_out, file_condition, file_connected, file_counts_out, file_openings, file_openings_out, file_outline, FilePromised, file_singular, file_singular_out, file_solid, file_written, file_written_bytes};
ghost use Rattle.jobs.specs.Jobs.{line_length, line_out, line_text};
ghost use Rattle.mesh.specs.Mesh.{imported, imported_in};
ghost use Rattle.mesh_answers.specs.ImportLines.{import_values};
ghost use Rattle.mesh_hold.specs.MeshTheorems.{ImportPromised};
ghost use Rattle.mesh_read.specs.Pieces.{HasRead};
ghost use Rattle.mesh_state.specs.State.{reader_in};
ghost use Rattle.pattern.specs.Contents.{Pattern};
ghost use Rattle.report_text.specs.Report.{report_of, ReportPromised};
ghost use Rattle.show_text.specs.PatternText.{file_text};
ghost use Rattle.store.specs.Store.{held};
ghost use Rattle.text_calls.specs.TextCalls.{draft_answer};
ghost use Rattle.words.specs.Words.{short};

use answers::Answer;
use jobs::Job;
use mesh_edges::Index;
use mesh_state::Numbers;
use pattern::{BODIES, LONGEST};
use store::{Spans, Tables};

#[unsafe(no_mangle)]
pub extern "C" fn wuzsanget_version() -> usize
    ensures { result ≡ 2 }
{
    wuzsanget::wuzsanget_version()
}

#[unsafe(no_mangle)]
pub extern "C" fn wuzsanget_read(file: &[u8]) -> Answer
    ensures { result ≡ file_check file.now }
{
    wuzsanget::wuzsanget_read(file)
}

#[unsafe(no_mangle)]
pub extern "C" fn wuzsanget_counts(file: &[u8], counts: &mut [u16; BODIES]) -> Answer
    ensures value { result ≡ file_check file.now }
    ensures counts_after { counts.new ≡ sets counts.old 0 (file_counts_out file.now) }
{
    wuzsanget::wuzsanget_counts(file, counts)
}

#[unsafe(no_mangle)]
pub extern "C" fn wuzsanget_outline(file: &[u8], wire: usize) -> Answer
    ensures { result ≡ file_outline file.now wire }
{
    wuzsanget::wuzsanget_outline(file, wire)
}

#[unsafe(no_mangle)]
pub extern "C" fn wuzsanget_write(file: &[u8], out: &mut [u8]) -> Answer
    ensures value { result ≡ file_written file.now out.old }
    ensures out_after { out.new ≡ file_written_bytes file.now out.old }
{
    wuzsanget::wuzsanget_write(file, out)
}

#[unsafe(no_mangle)]
pub extern "C" fn wuzsanget_report(file: &[u8], text: &mut [u8; 1126400]) -> usize
    ensures value { result ≡ length (report_of file.now) }
    ensures text_after { text.new ≡ sets text.old 0 (report_of file.now) }
    ensures report_promised { ReportPromised file.now }
{
    wuzsanget::wuzsanget_report(file, text)
}

#[unsafe(no_mangle)]
pub extern "C" fn wuzsanget_show(file: &[u8], text: &mut [u8; 262144]) -> usize
    ensures { (text.new ≡ sets text.old 0 (file_text file.now)) × (result ≡ length (file_text file.now)) }
{
    wuzsanget::wuzsanget_show(file, text)
}

#[unsafe(no_mangle)]
pub extern "C" fn wuzsanget_draft(
    text: &[u8],
    out: &mut [u8; LONGEST],
    said: &mut [u8; 256],
) -> Answer
    ensures value { result ≡ draft_answer (made text.now) }
    ensures out_after { (out.new ≡ made_in (made text.now) (text_file text.now) out.old) × (said.new ≡ sets said.old 0 (made_text (made text.now))) }
{
    wuzsanget::wuzsanget_draft(text, out, said)
}

#[unsafe(no_mangle)]
pub extern "C" fn wuzsanget_import(mesh: &[u8], out: &mut [u8]) -> Answer
    ensures value { (result ≡ import_values (imported mesh.now out.old)) × (out.new ≡ imported_in mesh.now out.old) }
    ensures import_promised { ImportPromised mesh.now }
{
    wuzsanget::wuzsanget_import(mesh, out)
}

#[unsafe(no_mangle)]
pub extern "C" fn wuzsanget_import_start(numbers: &mut Numbers, index: &mut Index)
    ensures { (p : Pattern) → HasRead [] (reader_in numbers.new) p index.new }
{
    wuzsanget::wuzsanget_import_start(numbers, index)
}

#[unsafe(no_mangle)]
pub extern "C" fn wuzsanget_import_step(
    numbers: &mut Numbers,
    tables: &mut Tables,
    spans: &mut Spans,
    index: &mut Index,
    piece: &[u8],
)
    ensures { (s : List ℕ) → HasRead s (reader_in numbers.old) (held tables.old spans.old) index.old → HasRead (s ++ piece.now) (reader_in numbers.new) (held tables.new spans.new) index.new }
{
    wuzsanget::wuzsanget_import_step(numbers, tables, spans, index, piece)
}

#[unsafe(no_mangle)]
pub extern "C" fn wuzsanget_import_finish(
    numbers: &mut Numbers,
    tables: &mut Tables,
    spans: &mut Spans,
    index: &mut Index,
    out: &mut [u8],
) -> Answer
    ensures { (s : List ℕ) → HasRead s (reader_in numbers.old) (held tables.old spans.old) index.old → (result ≡ import_values (imported s out.old)) × (out.new ≡ imported_in s out.old) × HasRead (s ++ (10 ∷ [])) (reader_in numbers.new) (held tables.new spans.new) index.new }
{
    wuzsanget::wuzsanget_import_finish(numbers, tables, spans, index, out)
}

#[unsafe(no_mangle)]
pub extern "C" fn wuzsanget_shell_condition(file: &[u8], shell: usize) -> Answer
    ensures { result ≡ file_condition file.now shell }
{
    wuzsanget::wuzsanget_shell_condition(file, shell)
}

#[unsafe(no_mangle)]
pub extern "C" fn wuzsanget_extract_boundaries(
    file: &[u8],
    shell: usize,
    uses: &mut [u16; 2048],
    lengths: &mut [u16; 2048],
) -> Answer
    ensures value { result ≡ file_openings file.now shell }
    ensures uses_after { uses.new ≡ sets uses.old 0 (flat (file_openings_out file.now shell)) }
    ensures lengths_after { lengths.new ≡ sets lengths.old 0 (map length (file_openings_out file.now shell)) }
    ensures file_promised { FilePromised file.now shell }
{
    wuzsanget::wuzsanget_extract_boundaries(file, shell, uses, lengths)
}

#[unsafe(no_mangle)]
pub extern "C" fn wuzsanget_is_connected(file: &[u8], shell: usize) -> Answer
    ensures { result ≡ file_connected file.now shell }
{
    wuzsanget::wuzsanget_is_connected(file, shell)
}

#[unsafe(no_mangle)]
pub extern "C" fn wuzsanget_connected_components(
    file: &[u8],
    shell: usize,
    listings: &mut [u16; 512],
    lengths: &mut [u16; 512],
) -> Answer
    ensures value { result ≡ file_components file.now shell }
    ensures listings_after { listings.new ≡ sets listings.old 0 (flat (file_components_out file.now shell)) }
    ensures lengths_after { lengths.new ≡ sets lengths.old 0 (map length (file_components_out file.now shell)) }
{
    wuzsanget::wuzsanget_connected_components(file, shell, listings, lengths)
}

#[unsafe(no_mangle)]
pub extern "C" fn wuzsanget_singular_vertices(
    file: &[u8],
    shell: usize,
    points: &mut [u16; 2048],
) -> Answer
    ensures value { result ≡ file_singular file.now shell }
    ensures points_after { points.new ≡ sets points.old 0 (file_singular_out file.now shell) }
{
    wuzsanget::wuzsanget_singular_vertices(file, shell, points)
}

#[unsafe(no_mangle)]
pub extern "C" fn wuzsanget_solid(file: &[u8]) -> Answer
    ensures { result ≡ file_solid file.now }
{
    wuzsanget::wuzsanget_solid(file)
}

#[unsafe(no_mangle)]
pub extern "C" fn wuzsanget_cut_edge(
    file: &[u8],
    shell: usize,
    edge: usize,
    point: usize,
    parameter: u64,
    out: &mut [u8],
) -> Answer
    ensures value { result ≡ file_cut file.now shell (short edge) (short point) parameter out.old }
    ensures out_after { out.new ≡ file_cut_bytes file.now shell (short edge) (short point) parameter out.old }
{
    wuzsanget::wuzsanget_cut_edge(file, shell, edge, point, parameter, out)
}

#[unsafe(no_mangle)]
pub extern "C" fn wuzsanget_remove_vertex(
    file: &[u8],
    shell: usize,
    point: usize,
    out: &mut [u8],
) -> Answer
    ensures value { result ≡ file_remove file.now shell (short point) out.old }
    ensures out_after { out.new ≡ file_remove_bytes file.now shell (short point) out.old }
{
    wuzsanget::wuzsanget_remove_vertex(file, shell, point, out)
}

#[unsafe(no_mangle)]
pub extern "C" fn wuzsanget_concat(file: &[u8], a: usize, b: usize, out: &mut [u8]) -> Answer
    ensures value { result ≡ file_concat file.now (short a) (short b) out.old }
    ensures out_after { out.new ≡ file_concat_bytes file.now (short a) (short b) out.old }
{
    wuzsanget::wuzsanget_concat(file, a, b, out)
}

#[unsafe(no_mangle)]
pub extern "C" fn wuzsanget_add_vertex(file: &[u8], label: usize, out: &mut [u8]) -> Answer
    ensures value { result ≡ file_vertex file.now label out.old }
    ensures out_after { out.new ≡ file_vertex_bytes file.now label out.old }
{
    wuzsanget::wuzsanget_add_vertex(file, label, out)
}

#[unsafe(no_mangle)]
pub extern "C" fn wuzsanget_add_boundary(
    file: &[u8],
    face: usize,
    wire: &[u16],
    uses: &mut [u16],
    lengths: &mut [u16],
) -> Answer
    ensures value { result ≡ file_add file.now (short face) wire.now (length uses.old) (length lengths.old) }
    ensures uses_after { uses.new ≡ sets uses.old 0 (flat (file_add_out file.now (short face) wire.now (length uses.old) (length lengths.old))) }
    ensures lengths_after { lengths.new ≡ sets lengths.old 0 (map length (file_add_out file.now (short face) wire.now (length uses.old) (length lengths.old))) }
{
    wuzsanget::wuzsanget_add_boundary(file, face, wire, uses, lengths)
}

#[unsafe(no_mangle)]
pub extern "C" fn wuzsanget_cut_by_wire(
    file: &[u8],
    face: usize,
    wire: &[u16],
    uses: &mut [u16],
    lengths: &mut [u16],
) -> Answer
    ensures value { result ≡ file_cut_face file.now (short face) wire.now (length uses.old) (length lengths.old) }
    ensures uses_after { uses.new ≡ sets uses.old 0 (flat (file_cut_face_out file.now (short face) wire.now (length uses.old) (length lengths.old))) }
    ensures lengths_after { lengths.new ≡ sets lengths.old 0 (map length (file_cut_face_out file.now (short face) wire.now (length uses.old) (length lengths.old))) }
{
    wuzsanget::wuzsanget_cut_by_wire(file, face, wire, uses, lengths)
}

#[unsafe(no_mangle)]
pub extern "C" fn wuzsanget_cut_by_edge(
    file: &[u8],
    face: usize,
    edge_use: usize,
    uses: &mut [u16],
    lengths: &mut [u16],
) -> Answer
    ensures value { result ≡ file_cut_face file.now (short face) (short edge_use ∷ []) (length uses.old) (length lengths.old) }
    ensures uses_after { uses.new ≡ sets uses.old 0 (flat (file_cut_face_out file.now (short face) (short edge_use ∷ []) (length uses.old) (length lengths.old))) }
    ensures lengths_after { lengths.new ≡ sets lengths.old 0 (map length (file_cut_face_out file.now (short face) (short edge_use ∷ []) (length uses.old) (length lengths.old))) }
{
    wuzsanget::wuzsanget_cut_by_edge(file, face, edge_use, uses, lengths)
}

#[unsafe(no_mangle)]
pub extern "C" fn wuzsanget_glue(
    file: &[u8],
    face: usize,
    other: usize,
    uses: &mut [u16],
    lengths: &mut [u16],
) -> Answer
    ensures value { result ≡ file_glue file.now (short face) (short other) (length uses.old) (length lengths.old) }
    ensures uses_after { uses.new ≡ sets uses.old 0 (flat (file_glue_out file.now (short face) (short other) (length uses.old) (length lengths.old))) }
    ensures lengths_after { lengths.new ≡ sets lengths.old 0 (map length (file_glue_out file.now (short face) (short other) (length uses.old) (length lengths.old))) }
{
    wuzsanget::wuzsanget_glue(file, face, other, uses, lengths)
}

#[unsafe(no_mangle)]
pub extern "C" fn wuzsanget_edit(
    line: &[u8],
    file: &[u8],
    out: &mut [u8; LONGEST],
    text: &mut [u8; 65536],
) -> Job
    ensures text_after { (text.new ≡ sets text.old 0 (line_text line.now file.now out.old)) × (result.text ≡ length (line_text line.now file.now out.old)) }
    ensures out_after { (out.new ≡ line_out line.now file.now out.old) × (result.file ≡ line_length line.now file.now out.old) }
{
    wuzsanget::wuzsanget_edit(line, file, out, text)
}
