// Replays the edits of a shell: the arguments name a pattern file and a file of jobs for `edit`, and so on
// in pairs. Prints for each pair the pattern file's name, and for each line the line, the answer of `edit`,
// and after a `done` what changed in the pattern as text. recorded/README.md has the words.
#![tactic(auto)]

ghost use Rattle.std.specs.Prelude.{◌≤◌};

use console::without_feed;
use pattern::LONGEST;
use std::io;

// A pattern file: the first bytes.
#[derive(Drop)]
struct File {
    bytes: [u8; LONGEST],
    length: usize,
    ghost inside: { length ≤ 41048 },
}

impl File {
    // These bytes, as many as there is room for.
    fn new(bytes: &[u8]) -> File {
        let n = bytes.len().min(LONGEST);
        let mut room = [0u8; LONGEST];
        room[..n].copy_from_slice(&bytes[..n]);
        File {
            bytes: room,
            length: n,
        }
    }

    fn content(&self) -> &[u8] {
        &self.bytes[..self.length]
    }
}

fn print_line(rt: &HostRuntime, mark: &[u8], line: &[u8]) -> io::Result<()> {
    rt.write_all(mark)?;
    rt.write_all(line)?;
    rt.write_all(b"\n")
}

// Whether a text has this line.
fn has_line(text: &[u8], line: &[u8]) -> bool {
    text.split_inclusive(|b| *b == b'\n')
        .any(|other| without_feed(other) == line)
}

// Prints each line of one text that the other has not, after a mark.
fn print_missing(rt: &HostRuntime, one: &[u8], other: &[u8], mark: &[u8]) -> io::Result<()> {
    let mut beside = other.split_inclusive(|b| *b == b'\n');
    for line in one.split_inclusive(|b| *b == b'\n') {
        // A line that stands at the same place in both texts is not looked for.
        let is_beside = beside.next().is_some_and(|same| same == line);
        let line = without_feed(line);
        if !is_beside && !has_line(other, line) {
            print_line(rt, mark, line)?;
        }
    }
    Ok(())
}

// Prints what changed from one pattern file to another: the lines that only one of their texts has.
fn print_changes(rt: &HostRuntime, old: &[u8], new: &[u8]) -> io::Result<()> {
    let mut before = [0u8; 262144];
    let mut after = [0u8; 262144];
    let n = show_text::show(old, &mut before);
    let m = show_text::show(new, &mut after);
    if let (Some(before), Some(after)) = (before.get(..n), after.get(..m)) {
        print_missing(rt, before, after, b"- ")?;
        print_missing(rt, after, before, b"+ ")?;
    }
    Ok(())
}

// Applies the job of a line to the file, and prints the answer and what changed.
fn replay_job(rt: &HostRuntime, file: &mut File, line: &[u8]) -> io::Result<()> {
    let mut out = [0u8; LONGEST];
    let mut text = [0u8; 65536];
    let done = jobs::run(line, file.content(), &mut out, &mut text);
    console::print_first(rt, &text, done.text)?;
    match out.get(..done.file) {
        Some(edited) if done.file > 0 => {
            print_changes(rt, file.content(), edited)?;
            *file = File::new(edited);
            Ok(())
        }
        _ => Ok(()),
    }
}

// Prints the report of a pattern file. A function of its own, so that the list of its text is cleared for a report alone.
fn print_report(rt: &HostRuntime, file: &[u8]) -> io::Result<()> {
    let mut text = [0u8; 1126400];
    let length = report_text::report(file, &mut text);
    console::print_first(rt, &text, length)
}

// Replays one line on the file; `read` is the file as it was read.
fn replay_line(rt: &HostRuntime, file: &mut File, read: &[u8], line: &[u8]) -> io::Result<()> {
    print_line(rt, b"", line)?;
    match line {
        b"fresh" => {
            *file = File::new(read);
            Ok(())
        }
        b"report" => print_report(rt, file.content()),
        job => replay_job(rt, file, job),
    }
}

fn replay(rt: &HostRuntime, read: &[u8], lines: &[u8]) -> io::Result<()> {
    let mut file = File::new(read);
    for line in lines.split_inclusive(|b| *b == b'\n') {
        replay_line(rt, &mut file, read, without_feed(line))?;
    }
    Ok(())
}

fn main(rt: HostRuntime) -> io::Result<()> {
    let mut bytes = [0u8; LONGEST];
    console::each_pair(&rt, &mut bytes, |read, lines| replay(&rt, read, lines))
}
