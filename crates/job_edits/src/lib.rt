// The edits of the jobs of the program `edit`, on a pattern file in memory.
#![tactic(auto)]

ghost use Rattle.std.specs.Prelude.{◌≡◌, map, ◌≤◌, length};
ghost use Rattle.std.proofs.lemmas.List.Edits.{sets};
ghost use Rattle.file_face_edits.specs.FileFaceEdits.{file_add, file_add_out, file_cut_face, file_cut_face_out};
ghost use Rattle.lists.specs.Lists.{flat};
ghost use Rattle.job_lines.specs.JobLines.{job_kinds};
ghost use Rattle.job_lines.specs.declared.Task.TheVariants.{Face, Shell};
ghost use Rattle.job_edits.specs.JobEdits.{face_answer, face_wires, shell_answer, shell_out, wire_named};

use answers::Answer;
use file_concat::file_concat;
use file_cut::file_cut;
use file_face_edits::{file_add, file_cut_by_wire, file_glue};
use file_remove::file_remove;
use file_vertex::file_add_vertex;
use job_lines::{FaceTask, ShellTask};
use words::{put_saturated, saturated};

// Applies an edit that makes a file; `out` takes the edited file.
pub fn shell_job(task: ShellTask, v: &[u64], file: &[u8], out: &mut [u8]) -> Answer
    requires { length (job_kinds (Shell task)) ≤ length v.now }
    ensures value { result ≡ shell_answer task v.now file.now out.old }
    ensures out_after { out.new ≡ shell_out task v.now file.now out.old }
{
    match task {
        ShellTask::Cut => file_cut(
            file,
            v[0] as usize,
            saturated(v[1]),
            saturated(v[2]),
            v[3],
            out,
        ),
        ShellTask::Remove => file_remove(file, v[0] as usize, saturated(v[1]), out),
        ShellTask::Concat => file_concat(file, saturated(v[0]), saturated(v[1]), out),
        ShellTask::Point => file_add_vertex(file, v[0] as usize, out),
    }
}

// Writes the wire of an edit, which follows the face in its values.
fn put_wire<'a>(v: &[u64], wire: &'a mut [u16; 32768]) -> &'a [u16]
    requires { (1 ≤ length v.now) × (length v.now ≤ 32768) }
    ensures { result.now ≡ wire_named v.now }
{
    let n = v.len() - 1;
    put_saturated(&v[1..n + 1], wire, 0);
    &wire[0..n]
}

// Adds the wire of these values to a face. The wire is made here, so that a glue makes none.
fn add_named(face: u16, v: &[u64], file: &[u8], uses: &mut [u16], lens: &mut [u16]) -> Answer
    requires { (1 ≤ length v.now) × (length v.now ≤ 32768) }
    ensures value { result ≡ file_add file.now face (wire_named v.now) (length uses.old) (length lens.old) }
    ensures uses_after { uses.new ≡ sets uses.old 0 (flat (file_add_out file.now face (wire_named v.now) (length uses.old) (length lens.old))) }
    ensures lens_after { lens.new ≡ sets lens.old 0 (map length (file_add_out file.now face (wire_named v.now) (length uses.old) (length lens.old))) }
{
    let mut wire = [0u16; 32768];
    file_add(file, face, put_wire(v, &mut wire), uses, lens)
}

// Cuts a face by the wire of these values.
fn cut_named(face: u16, v: &[u64], file: &[u8], uses: &mut [u16], lens: &mut [u16]) -> Answer
    requires { (1 ≤ length v.now) × (length v.now ≤ 32768) }
    ensures value { result ≡ file_cut_face file.now face (wire_named v.now) (length uses.old) (length lens.old) }
    ensures uses_after { uses.new ≡ sets uses.old 0 (flat (file_cut_face_out file.now face (wire_named v.now) (length uses.old) (length lens.old))) }
    ensures lens_after { lens.new ≡ sets lens.old 0 (map length (file_cut_face_out file.now face (wire_named v.now) (length uses.old) (length lens.old))) }
{
    let mut wire = [0u16; 32768];
    file_cut_by_wire(file, face, put_wire(v, &mut wire), uses, lens)
}

// Applies an edit of a face to a file; the lists take the wires of its result.
pub fn face_job(
    task: FaceTask,
    v: &[u64],
    file: &[u8],
    uses: &mut [u16],
    lens: &mut [u16],
) -> Answer
    requires v_len { (length (job_kinds (Face task)) ≤ length v.now) × (length v.now ≤ 32768) }
    requires uses_len { (length uses.old ≡ 4096) × (length lens.old ≡ 4096) }
    ensures value { result ≡ face_answer task v.now file.now }
    ensures uses_after { uses.new ≡ sets uses.old 0 (flat (face_wires task v.now file.now)) }
    ensures lens_after { lens.new ≡ sets lens.old 0 (map length (face_wires task v.now file.now)) }
{
    let face = saturated(v[0]);
    match task {
        FaceTask::Add => add_named(face, v, file, uses, lens),
        FaceTask::CutFace => cut_named(face, v, file, uses, lens),
        FaceTask::Glue => file_glue(file, face, saturated(v[1]), uses, lens),
    }
}
