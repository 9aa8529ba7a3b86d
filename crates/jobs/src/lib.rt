// The jobs of the program `edit`: a line of text is applied to a pattern file in memory.
#![tactic(auto)]

ghost use Rattle.std.specs.Prelude.{◌≡◌, ◌≤◌, length};
ghost use Rattle.std.proofs.lemmas.List.Edits.{sets};
ghost use Rattle.job_lines.specs.JobLines.{job_kinds};
ghost use Rattle.job_lines.specs.declared.Task.TheVariants.{Face, Shell};
ghost use Rattle.job_edits.specs.JobEdits.{face_answer, face_wires, shell_answer, shell_out};
ghost use Rattle.jobs.specs.Jobs.{face_text, has_mark, job_length, job_out, job_text, line_length, line_out, line_text, shell_text, unnamed_text};

use answer_lines::put_refused;
use job_edits::{face_job, shell_job};
use job_lines::{
    FaceTask, ShellTask, Task, first_of, match_job, needed, put_done, put_new, put_no_job,
};
use output::put_text;
use pattern::LONGEST;
use text::trimmed;

// Applies an edit of a face, and writes its answer; returns the length of the answer.
fn do_face_job(task: FaceTask, v: &[u64], file: &[u8], text: &mut [u8]) -> usize
    requires { (length (job_kinds (Face task)) ≤ length v.now) × (length v.now ≤ 32768) × (65536 ≤ length text.old) }
    ensures { (text.new ≡ sets text.old 0 (face_text (face_answer task v.now file.now) (face_wires task v.now file.now))) × (result ≡ length (face_text (face_answer task v.now file.now) (face_wires task v.now file.now))) }
{
    let mut uses = [0u16; 4096];
    let mut lens = [0u16; 4096];
    let a = face_job(task, v, file, &mut uses, &mut lens);
    if a.outcome != 0 {
        return put_refused(text, a.outcome, a.number, a.first, a.second);
    }
    let m = a.first;
    let k = a.second;
    put_done(text, &uses[0..m], &lens[0..k])
}

// The lengths of an answer's text and of the edited file; 0 where the file stays as it is.
#[repr(C)]
#[derive(Clone, Copy)]
pub struct Job {
    pub text: usize,
    pub file: usize,
}

// Applies an edit that makes a file, and writes its answer.
fn do_shell_job(task: ShellTask, v: &[u64], file: &[u8], out: &mut [u8], text: &mut [u8]) -> Job
    requires { (length (job_kinds (Shell task)) ≤ length v.now) × (96 ≤ length text.old) }
    ensures text_after { (text.new ≡ sets text.old 0 (shell_text task (shell_answer task v.now file.now out.old))) × (result.text ≡ length (shell_text task (shell_answer task v.now file.now out.old))) }
    ensures out_after { (out.new ≡ shell_out task v.now file.now out.old) × (result.file ≡ (shell_answer task v.now file.now out.old).third) }
{
    let made = shell_job(task, v, file, out);
    if made.outcome != 0 {
        return Job {
            text: put_refused(text, made.outcome, made.number, made.first, made.second),
            file: made.third,
        };
    }
    Job {
        text: put_new(text, task, made.first, made.second),
        file: made.third,
    }
}

// Applies a job with these values, and writes its answer.
fn do_job(task: Task, v: &[u64], file: &[u8], out: &mut [u8], text: &mut [u8]) -> Job
    requires { (length (job_kinds task) ≤ length v.now) × (length v.now ≤ 32768) × (65536 ≤ length text.old) }
    ensures text_after { (text.new ≡ sets text.old 0 (job_text task v.now file.now out.old)) × (result.text ≡ length (job_text task v.now file.now out.old)) }
    ensures out_after { (out.new ≡ job_out task v.now file.now out.old) × (result.file ≡ job_length task v.now file.now out.old) }
{
    match task {
        Task::Shell(t) => do_shell_job(t, v, file, out, text),
        Task::Face(t) => Job {
            text: do_face_job(t, v, file, text),
            file: 0,
        },
    }
}

// Whether a line begins with the byte order mark of UTF-8.
#[tactic(auto, unfolding(crate::specs::Jobs::has_mark))]
pub fn is_marked(line: &[u8]) -> bool
    ensures { result ≡ has_mark line.now }
{
    line.starts_with(b"\xef\xbb\xbf")
}

// Writes the answer to a line that begins with no job's name.
fn put_unnamed(line: &[u8], text: &mut [u8]) -> usize
    requires { 128 ≤ length text.old }
    ensures { (text.new ≡ sets text.old 0 (unnamed_text line.now)) × (result ≡ length (unnamed_text line.now)) }
{
    if is_marked(line) {
        return put_text(
            text,
            0,
            b"no job: begins with a byte order mark: save the jobs as UTF-8 without one\n",
        );
    }
    put_no_job(text, None, 2)
}

// Applies the job that a line of text asks for to a file: `out` takes the edited file, `text` the line of
// the answer.
fn apply(line: &[u8], file: &[u8], out: &mut [u8], text: &mut [u8; 65536]) -> Job
    ensures text_after { (text.new ≡ sets text.old 0 (line_text line.now file.now out.old)) × (result.text ≡ length (line_text line.now file.now out.old)) }
    ensures out_after { (out.new ≡ line_out line.now file.now out.old) × (result.file ≡ line_length line.now file.now out.old) }
{
    if line.len() > 65536 {
        return Job {
            text: put_text(text, 0, b"no job: over 65536 bytes\n"),
            file: 0,
        };
    }
    let first = first_of(trimmed(line));
    let Some(task) = first.task else {
        return Job {
            text: put_unnamed(line, text),
            file: 0,
        };
    };
    let mut values = [0u64; 32768];
    let m = match_job(task, first.rest, &mut values);
    let n = m.words;
    if !m.all {
        return Job {
            text: put_no_job(text, Some(task), n + 2),
            file: 0,
        };
    }
    if n < needed(task) {
        return Job {
            text: put_no_job(text, Some(task), n + 2),
            file: 0,
        };
    }
    do_job(task, &values[..n], file, out, text)
}

// The same, with room for the longest file.
pub fn run(line: &[u8], file: &[u8], out: &mut [u8; LONGEST], text: &mut [u8; 65536]) -> Job
    ensures text_after { (text.new ≡ sets text.old 0 (line_text line.now file.now out.old)) × (result.text ≡ length (line_text line.now file.now out.old)) }
    ensures out_after { (out.new ≡ line_out line.now file.now out.old) × (result.file ≡ line_length line.now file.now out.old) }
{
    apply(line, file, out, text)
}
