// The jobs of the program `edit` as lines of text: which job a line asks for, its words, and the lines
// of the answers.
#![tactic(auto)]

ghost use Rattle.std.specs.Prelude.{◌≡◌, ◌+◌, ◌*◌, ◌≤◌, eqb, drop, length, take};
ghost use Rattle.std.proofs.lemmas.List.Edits.{sets};
ghost use Rattle.lists.specs.Lists.{split, sum};
ghost use Rattle.forms.specs.Forms.{values as values_of};
ghost use Rattle.text.specs.Text.{words};
ghost use Rattle.job_lines.specs.JobLines.{done_text, first_word, job_form, job_kinds, job_named, job_rest, new_text, no_job};

use answer_lines::put_wires;
use forms::{Matched, WordKind, put_values};
use lines::put_number;
use output::{put_field, put_text};
use text::next_word;

// A job that makes a file: an edit of a shell, or a point added.
#[derive(Clone, Copy)]
pub enum ShellTask {
    Cut,
    Remove,
    Concat,
    Point,
}

// A job that edits a face, and leaves the file as it is.
#[derive(Clone, Copy)]
pub enum FaceTask {
    Add,
    CutFace,
    Glue,
}

// What a job does.
#[derive(Clone, Copy)]
pub enum Task {
    Shell(ShellTask),
    Face(FaceTask),
}

// The job that a name asks for.
#[tactic(auto, unfolding(crate::specs::JobLines::job_named))]
fn job_named(name: &[u8]) -> Option<Task>
    ensures { result ≡ job_named name.now }
{
    match name {
        b"cut" => Some(Task::Shell(ShellTask::Cut)),
        b"remove" => Some(Task::Shell(ShellTask::Remove)),
        b"concat" => Some(Task::Shell(ShellTask::Concat)),
        b"point" => Some(Task::Shell(ShellTask::Point)),
        b"add" => Some(Task::Face(FaceTask::Add)),
        b"cutface" => Some(Task::Face(FaceTask::CutFace)),
        b"glue" => Some(Task::Face(FaceTask::Glue)),
        _ => None,
    }
}

// The kinds of the words that a job must have after its name.
fn kinds_of(task: Task) -> &'static [WordKind]
    ensures { result.now ≡ job_kinds task }
{
    match task {
        Task::Shell(ShellTask::Cut) => &[
            WordKind::Number,
            WordKind::Number,
            WordKind::Number,
            WordKind::Parameter,
        ],
        Task::Shell(ShellTask::Remove) => &[WordKind::Number, WordKind::Number],
        Task::Shell(ShellTask::Concat) => &[WordKind::Signed, WordKind::Signed],
        Task::Shell(ShellTask::Point) => &[WordKind::Label],
        Task::Face(FaceTask::Add) => &[WordKind::Signed],
        Task::Face(FaceTask::CutFace) => &[WordKind::Signed],
        Task::Face(FaceTask::Glue) => &[WordKind::Signed, WordKind::Signed],
    }
}

// How many these are.
pub fn needed(task: Task) -> usize
    ensures { (result ≡ length (job_kinds task)) × (1 ≤ result) × (result ≤ 4) }
{
    kinds_of(task).len()
}

// The kind of any further word, if there may be one.
fn rest_of(task: Task) -> Option<WordKind>
    ensures { result ≡ job_rest task }
{
    match task {
        Task::Shell(_) => None,
        Task::Face(FaceTask::Add) => Some(WordKind::Signed),
        Task::Face(FaceTask::CutFace) => Some(WordKind::Signed),
        Task::Face(FaceTask::Glue) => None,
    }
}

// The values of the words after the name of the job.
pub fn match_job(task: Task, line: &[u8], out: &mut [u64]) -> Matched
    requires { length line.now ≤ 2 * length out.old }
    ensures out_after { out.new ≡ sets out.old 0 (values_of (job_kinds task) (job_rest task) 0 (words line.now)) }
    ensures words_value { result.words ≡ length (values_of (job_kinds task) (job_rest task) 0 (words line.now)) }
    ensures all_value { result.all ≡ eqb (length (values_of (job_kinds task) (job_rest task) 0 (words line.now))) (length (words line.now)) }
{
    put_values(line, kinds_of(task), rest_of(task), out)
}

// The job that the first word of a line asks for, and what follows that word.
#[derive(Clone, Copy)]
pub struct First<'a> {
    pub task: Option<Task>,
    pub rest: &'a [u8],
}

#[tactic(auto, unfolding(crate::specs::JobLines::job_named))]
pub fn first_of(line: &[u8]) -> First<'_>
    ensures { (result.task ≡ job_named (first_word (words line.now))) × (words result.rest.now ≡ drop 1 (words line.now)) × (length result.rest.now ≤ length line.now) }
{
    match next_word(line) {
        Some((name, rest)) => First {
            task: job_named(name),
            rest,
        },
        None => First {
            task: None,
            rest: line,
        },
    }
}

// The form of a job.
fn form_of(task: Task) -> &'static [u8]
    ensures { (result.now ≡ job_form task) × (length result.now ≤ 40) }
{
    match task {
        Task::Shell(ShellTask::Cut) => b"cut SHELL EDGE POINT PARAMETER",
        Task::Shell(ShellTask::Remove) => b"remove SHELL POINT",
        Task::Shell(ShellTask::Concat) => b"concat USE USE",
        Task::Shell(ShellTask::Point) => b"point LABEL",
        Task::Face(FaceTask::Add) => b"add FACE USE ..",
        Task::Face(FaceTask::CutFace) => b"cutface FACE USE ..",
        Task::Face(FaceTask::Glue) => b"glue FACE FACE",
    }
}

// Writes the answer to a line that is no job: word n is wrong or missing. Where the line begins with no job's name, `task` is
// none.
pub fn put_no_job(text: &mut [u8], task: Option<Task>, n: usize) -> usize
    requires { 128 ≤ length text.old }
    ensures { (text.new ≡ sets text.old 0 (no_job task n)) × (result ≡ length (no_job task n)) }
{
    let Some(task) = task else {
        return put_text(
            text,
            0,
            b"no job: begin with cut, remove, concat, point, add, cutface or glue\n",
        );
    };
    let mut at = put_field(text, 0, b"no job: word ", n);
    at = put_text(text, at, b" of ");
    at = put_text(text, at, form_of(task));
    put_text(text, at, b"\n")
}

// Writes the answer of an edit that makes a file: the new edges, of which a cut has two, or the new
// point.
pub fn put_new(text: &mut [u8], task: ShellTask, first: usize, second: usize) -> usize
    requires { 96 ≤ length text.old }
    ensures { (text.new ≡ sets text.old 0 (new_text task first second)) × (result ≡ length (new_text task first second)) }
{
    match task {
        ShellTask::Cut => {
            let at = put_field(text, 0, b"done edges ", first);
            put_number(text, at, b" ", second)
        }
        ShellTask::Remove => put_number(text, 0, b"done edge ", first),
        ShellTask::Concat => put_number(text, 0, b"done edge ", first),
        ShellTask::Point => put_number(text, 0, b"done point ", first),
    }
}

// Writes the answer of an edit of a face whose result is these wires.
pub fn put_done(text: &mut [u8], uses: &[u16], lens: &[u16]) -> usize
    requires { (65536 ≤ length text.old) × (sum lens.now ≡ length uses.now) × (length uses.now ≤ 4096) × (length lens.now ≤ 4096) }
    ensures { (text.new ≡ sets text.old 0 (done_text (split lens.now uses.now))) × (result ≡ length (done_text (split lens.now uses.now))) }
{
    let mut at = put_text(text, 0, b"done");
    at = put_wires(text, at, uses, lens);
    put_text(text, at, b"\n")
}
