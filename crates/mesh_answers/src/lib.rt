// The answer of an import: as numbers, and as the line of a refusal.
#![tactic(auto)]

ghost use Rattle.std.specs.Prelude.{◌≡◌, ◌≤◌, length};
ghost use Rattle.std.proofs.lemmas.List.Edits.{sets};
ghost use Rattle.mesh_answers.specs.ImportLines.{import_line, import_values, line_refusal};

use answers::{Answer, done_with, refused, unread};
use errors::CallError;
use mesh::{LineFault, MeshError};
use output::{put_field, put_refusal, put_text};

// The answer as numbers.
pub fn import_values(a: Result<usize, CallError<MeshError>>) -> Answer
    ensures { result ≡ import_values a }
{
    match a {
        Ok(n) => done_with(n, 0, 0),
        Err(CallError::Unread(r)) => unread(r),
        Err(CallError::Refused(MeshError::Line(f, n))) => refused(f.number(), n as usize),
        Err(CallError::Refused(MeshError::NoSpace(n))) => refused(17, n),
    }
}

// The line of a refusal with the number of a line.
fn put_line(f: LineFault, n: usize, out: &mut [u8]) -> usize
    requires { 96 ≤ length out.old }
    ensures { (out.new ≡ sets out.old 0 (line_refusal f n)) × (result ≡ length (line_refusal f n)) × (result ≤ 96) }
{
    let mut at = put_field(out, 0, b"refused ", f.number());
    at = put_field(out, at, b" line ", n);
    put_text(out, at, b"\n")
}

// Writes the line of a refusal, if it is one, and returns its length.
pub fn put_import(a: Result<usize, CallError<MeshError>>, out: &mut [u8; 96]) -> usize
    ensures { (out.new ≡ sets out.old 0 (import_line a)) × (result ≡ length (import_line a)) × (result ≤ 96) }
{
    match a {
        Ok(_) => 0,
        Err(CallError::Unread(r)) => put_refusal(r, out),
        Err(CallError::Refused(MeshError::Line(f, n))) => put_line(f, n as usize, out),
        Err(CallError::Refused(MeshError::NoSpace(_))) => put_text(out, 0, b"refused 17\n"),
    }
}
