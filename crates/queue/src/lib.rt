// The queue of the program `edit`: the words that it is started with, a job done on the file in memory, the
// answer that is printed, and whether the queue stops there.
#![tactic(auto)]

ghost use Rattle.std.specs.Prelude.{◌≡◌, ◌&&◌, not, ◌≤◌, min, length, take, unwrap_or};
ghost use Rattle.std.proofs.lemmas.List.Edits.{sets};
ghost use Rattle.jobs.specs.Jobs.{line_length, line_text};
ghost use Rattle.queue.specs.Queue.{answer_text, chosen, edited, edited_length, file_after, is_done, room};
ghost use Rattle.queue.specs.Command.{next_asked, word_of};

use output::put_text;
use pattern::LONGEST;
use text::name_of;

// A word of the command line.
#[derive(Clone, Copy)]
pub enum Word {
    Stop,
    Try,
    Help,
    Name,
    Unknown,
}

// What the words so far ask: nothing but options, whether to stop and whether to try; a file with these; the
// usage; or they make no sense.
#[derive(Clone, Copy)]
pub enum Asked {
    Options(bool, bool),
    File(bool, bool),
    Usage,
    Misused,
}

#[tactic(auto, unfolding(crate::specs::Command::word_of))]
pub fn word_of(word: &[u8]) -> Word
    ensures { result ≡ word_of word.now }
{
    match word {
        b"--stop" => Word::Stop,
        b"--try" => Word::Try,
        b"--help" | b"-h" => Word::Help,
        [b'-', ..] => Word::Unknown,
        _ => Word::Name,
    }
}

// What the words ask with one more.
pub fn next(asked: Asked, word: Word) -> Asked
    ensures { result ≡ next_asked asked word }
{
    match asked {
        Asked::File(_, _) | Asked::Usage | Asked::Misused => Asked::Misused,
        Asked::Options(stop, trial) => match word {
            Word::Stop => Asked::Options(true, trial),
            Word::Try => Asked::Options(stop, true),
            Word::Name => Asked::File(stop, trial),
            Word::Unknown => Asked::Misused,
            Word::Help => {
                if stop || trial {
                    Asked::Misused
                } else {
                    Asked::Usage
                }
            }
        },
    }
}

// The length of a job's text, and that of the edited file, where there is one.
#[derive(Clone, Copy)]
pub struct Stepped {
    pub text: usize,
    pub edited: Option<usize>,
}

// Puts the first k bytes of an edited file, where there is one, in the place of a file of n bytes, and
// returns the length of what is there then.
fn put_edited(file: &mut [u8; 41049], n: usize, out: &[u8; LONGEST], k: usize) -> usize
    requires { n ≤ length file.old }
    ensures { (file.new ≡ sets file.old 0 (edited (take n file.old) out.now k)) × (result ≡ length (edited (take n file.old) out.now k)) }
{
    if k == 0 {
        return n;
    }
    if k > out.len() {
        return n;
    }
    put_text(file, 0, &out[..k])
}

// Does the job that a line asks for on the file that the first n bytes hold, and puts the edited file in its
// place. A length beside the list: the edited file may be longer than the one that is there. Where no file is edited, the
// file has the length that it had.
pub fn step(line: &[u8], file: &mut [u8; 41049], n: usize, text: &mut [u8; 65536]) -> Stepped
    ensures text_after { (text.new ≡ sets text.old 0 (line_text line.now (take n file.old) room)) × (result.text ≡ length (line_text line.now (take n file.old) room)) }
    ensures file_after { (file.new ≡ sets file.old 0 (file_after line.now (take n file.old))) × (result.edited ≡ edited_length line.now (take n file.old)) }
    ensures length_after { unwrap_or result.edited (min n 41049) ≡ length (file_after line.now (take n file.old)) }
{
    let mut out = [0u8; LONGEST];
    let m = n.min(file.len());
    let job = jobs::run(line, &file[..m], &mut out, text);
    let length = put_edited(file, m, &out, job.file);
    Stepped {
        text: job.text,
        edited: (job.file > 0).then_some(length),
    }
}

// What is done with a line: it is skipped; it is answered that the file cannot be read; its job is done in
// memory alone; its job is done on the file.
#[derive(Clone, Copy)]
pub enum Choice {
    Skip,
    Miss,
    Rehearse,
    Perform,
}

// The choice, by whether the queue is stopped, whether it only tries, and whether the file that it tries on
// was read.
pub fn choose(stopped: bool, trial: bool, known: bool) -> Choice
    ensures { result ≡ chosen stopped trial known }
{
    if stopped {
        return Choice::Skip;
    }
    if trial {
        if known {
            return Choice::Rehearse;
        }
        return Choice::Miss;
    }
    Choice::Perform
}

// How a line of the queue ended: its job is done or refused as its text says; the file could not be replaced;
// it is replaced, and its directory not synced; it could not be read; the queue was stopped.
#[derive(Clone, Copy)]
pub enum Ending {
    Done,
    Kept,
    Unsynced,
    Unread,
    Skipped,
}

// Whether an answer says that the job is done.
fn is_done(answer: &[u8]) -> bool
    ensures { result ≡ is_done answer.now }
{
    if answer.len() < 5 {
        return false;
    }
    if name_of(&answer[0..4]) != 0x1646f6e65 {
        return false;
    }
    if answer[4] == b' ' {
        return true;
    }
    answer[4] == b'\n'
}

// Writes the answer to a line: the first n bytes of its job's text by how it ended. Returns the answer's length.
fn put_answer(ending: Ending, text: &[u8], answer: &mut [u8]) -> usize
    requires { (length text.now ≤ 65536) × (65664 ≤ length answer.old) }
    ensures { (answer.new ≡ sets answer.old 0 (answer_text ending text.now)) × (result ≡ length (answer_text ending text.now)) × (result ≤ length answer.new) }
{
    match ending {
        Ending::Done => put_text(answer, 0, text),
        Ending::Kept => put_text(answer, 0, b"failed: the file keeps its old bytes\n"),
        Ending::Unsynced => {
            let at = put_text(
                answer,
                0,
                b"failed: the file has its new bytes, but its directory is not synced: ",
            );
            put_text(answer, at, text)
        }
        Ending::Unread => put_text(answer, 0, b"failed: the file cannot be read\n"),
        Ending::Skipped => put_text(answer, 0, b"skipped\n"),
    }
}

// The length of an answer, and whether the queue is stopped after it: yes or no by itself, as are whether it is to
// stop, whether it only tries and whether the file was read. An enum would say no more.
#[derive(Clone, Copy)]
pub struct Answered {
    pub length: usize,
    pub stopped: bool,
}

// The answer to a line, of which the first n bytes of `text` are the job's text. Where the queue is to stop it
// is stopped after an answer that is not done. A length beside the list: `step` says that the text's length is n,
// and not that the list holds it.
pub fn finish(
    stop: bool,
    ending: Ending,
    text: &[u8; 65536],
    n: usize,
    answer: &mut [u8; 65664],
) -> Answered
    ensures answer_after { (answer.new ≡ sets answer.old 0 (answer_text ending (take n text.now))) × (result.length ≡ length (answer_text ending (take n text.now))) × (result.length ≤ length answer.new) }
    ensures stopped_value { result.stopped ≡ (stop && not (is_done (answer_text ending (take n text.now)))) }
{
    let m = n.min(text.len());
    let length = put_answer(ending, &text[..m], answer);
    let done = is_done(&answer[..length]);
    Answered {
        length,
        stopped: stop && !done,
    }
}
