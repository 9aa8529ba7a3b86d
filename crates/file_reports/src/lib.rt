// Reading, writing and the reports as calls on a pattern file in memory, with answers in numbers.
#![tactic(auto)]

ghost use Rattle.std.specs.Prelude.{◌≡◌, map, length};
ghost use Rattle.std.proofs.lemmas.List.Edits.{sets};
ghost use Rattle.lists.specs.Lists.{flat};
ghost use Rattle.file_reports.specs.FileReports.{file_check, file_components, file_components_out, file_condition, file_connected, file_counts_out, file_openings, file_openings_out, file_outline, FilePromised, file_singular, file_singular_out, file_solid, file_written, file_written_bytes};

use answers::{Answer, check_values, done_with, on_file, unread};
use group_calls::{connected_components, is_connected, singular_vertices};
use pattern::BODIES;
use shell_calls::{extract_boundaries, shell_condition};
use solid_calls::try_new;
use store::{SPANS, TABLES, tables_known};
use store_check::wire_place;
use store_read::read;
use store_write::write;
use words::copy_to;

// The reading checks of a file.
pub fn check_file(file: &[u8]) -> Answer
    ensures { result ≡ file_check file.now }
{
    let mut t = [0u16; TABLES];
    let mut spans = [0.0; SPANS];
    check_values(read(file, &mut t, &mut spans))
}

// How many records each body has.
pub fn file_counts(file: &[u8], counts: &mut [u16; BODIES]) -> Answer
    ensures value { result ≡ file_check file.now }
    ensures counts_after { counts.new ≡ sets counts.old 0 (file_counts_out file.now) }
{
    let mut t = [0u16; TABLES];
    let mut spans = [0.0; SPANS];
    match read(file, &mut t, &mut spans) {
        Err(f) => unread(f),
        Ok(()) => {
            tables_known(&t);
            copy_to(&t[0..BODIES], counts, 0);
            done_with(0, 0, 0)
        }
    }
}

// Where the uses of wire w stand in the use list.
pub fn file_outline(file: &[u8], w: usize) -> Answer
    ensures { result ≡ file_outline file.now w }
{
    on_file(file, &mut |t, spans| wire_place(t, spans, w))
}

// Reads a file and writes its pattern.
pub fn rewrite_file(file: &[u8], out: &mut [u8]) -> Answer
    ensures value { result ≡ file_written file.now out.old }
    ensures out_after { out.new ≡ file_written_bytes file.now out.old }
{
    on_file(file, &mut |t, spans| write(t, spans, out))
}

// The condition of shell n.
pub fn file_condition(file: &[u8], n: usize) -> Answer
    ensures { result ≡ file_condition file.now n }
{
    on_file(file, &mut |t, spans| shell_condition(t, spans, n))
}

// The openings of shell n.
pub fn file_openings(file: &[u8], n: usize, out: &mut [u16; 2048], lens: &mut [u16; 2048]) -> Answer
    ensures value { result ≡ file_openings file.now n }
    ensures out_after { out.new ≡ sets out.old 0 (flat (file_openings_out file.now n)) }
    ensures lens_after { lens.new ≡ sets lens.old 0 (map length (file_openings_out file.now n)) }
    ensures file_promised { FilePromised file.now n }
{
    on_file(
        file,
        &mut |t, spans| extract_boundaries(t, spans, n, out, lens),
    )
}

// Whether shell n is connected.
pub fn file_connected(file: &[u8], n: usize) -> Answer
    ensures { result ≡ file_connected file.now n }
{
    on_file(file, &mut |t, spans| is_connected(t, spans, n))
}

// The components of shell n.
pub fn file_components(file: &[u8], n: usize, out: &mut [u16; 512], lens: &mut [u16; 512]) -> Answer
    ensures value { result ≡ file_components file.now n }
    ensures out_after { out.new ≡ sets out.old 0 (flat (file_components_out file.now n)) }
    ensures lens_after { lens.new ≡ sets lens.old 0 (map length (file_components_out file.now n)) }
{
    on_file(
        file,
        &mut |t, spans| connected_components(t, spans, n, out, lens),
    )
}

// The singular points of shell n.
pub fn file_singular(file: &[u8], n: usize, out: &mut [u16; 2048]) -> Answer
    ensures value { result ≡ file_singular file.now n }
    ensures out_after { out.new ≡ sets out.old 0 (file_singular_out file.now n) }
{
    on_file(file, &mut |t, spans| singular_vertices(t, spans, n, out))
}

// Whether the shells make a solid.
pub fn file_solid(file: &[u8]) -> Answer
    ensures { result ≡ file_solid file.now }
{
    on_file(file, &mut |t, spans| try_new(t, spans))
}
