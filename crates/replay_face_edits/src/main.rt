// Replays the edits of faces: the arguments name a pattern file and a file of edits, and so on in pairs.
// Prints for each pair the pattern file's name, and for each line the line and what the library answers, in
// the words of `edit`. recorded/README.md has the words.
#![tactic(auto)]

use answer_lines::put_refused;
use answers::Answer;
use console::without_feed;
use forms::{Matched, WordKind, put_values};
use job_lines::put_done;
use std::io;
use text::word_end;
use words::{put_saturated, sum_of};
use wuzsanget::{
    wuzsanget_add_boundary, wuzsanget_cut_by_edge, wuzsanget_cut_by_wire, wuzsanget_glue,
};

#[derive(Clone, Copy, PartialEq, Eq)]
enum Edit {
    Add,
    CutFace,
    CutEdge,
    Glue,
}

impl Edit {
    fn named(name: &[u8]) -> Option<Edit> {
        match name {
            b"add" => Some(Edit::Add),
            b"cutface" => Some(Edit::CutFace),
            b"cutedge" => Some(Edit::CutEdge),
            b"glue" => Some(Edit::Glue),
            _ => None,
        }
    }

    // The kinds of the words after the name; any further word is a use.
    fn kinds(self) -> [WordKind; 4] {
        match self {
            Edit::Glue => [
                WordKind::Signed,
                WordKind::Signed,
                WordKind::Number,
                WordKind::Number,
            ],
            _ => [
                WordKind::Signed,
                WordKind::Number,
                WordKind::Number,
                WordKind::Signed,
            ],
        }
    }

    // Whether the words after the name make the edit. A line that is no edit has no answer.
    fn takes(self, m: Matched) -> bool {
        match self {
            Edit::Glue | Edit::CutEdge => m.all && m.words == 4,
            Edit::Add | Edit::CutFace => m.all,
        }
    }

    // Applies the edit with these values and this wire; the lists take the wires of its result.
    fn apply(
        self,
        v: &[u16; 2048],
        wire: &[u16],
        file: &[u8],
        uses: &mut [u16],
        lens: &mut [u16],
    ) -> Answer {
        let first = usize::from(v[0]);
        match self {
            Edit::Glue => wuzsanget_glue(file, first, usize::from(v[1]), uses, lens),
            Edit::CutEdge => wuzsanget_cut_by_edge(file, first, usize::from(v[3]), uses, lens),
            Edit::Add => wuzsanget_add_boundary(file, first, wire, uses, lens),
            Edit::CutFace => wuzsanget_cut_by_wire(file, first, wire, uses, lens),
        }
    }
}

// Writes the answer of an edit whose result is these wires, and returns its length.
fn put_wires(uses: &[u16], lens: &[u16], text: &mut [u8; 65536]) -> usize {
    if uses.len() > 4096 {
        return 0;
    }
    if lens.len() > 4096 {
        return 0;
    }
    if sum_of(lens) != uses.len() {
        return 0;
    }
    put_done(text, uses, lens)
}

// Writes an answer whose wires are in the lists, and returns its length.
fn put_answer(a: Answer, uses: &[u16], lens: &[u16], text: &mut [u8; 65536]) -> usize {
    if a.outcome != 0 {
        return put_refused(text, a.outcome, a.number, a.first, a.second);
    }
    match (uses.get(..a.first), lens.get(..a.second)) {
        (Some(uses), Some(lens)) => put_wires(uses, lens, text),
        _ => 0,
    }
}

// Replays an edit with these values and this wire.
fn replay_edit(
    rt: &HostRuntime,
    edit: Edit,
    v: &[u16; 2048],
    wire: &[u16],
    file: &[u8],
) -> io::Result<()> {
    let mut uses = [0u16; 4096];
    let mut lens = [0u16; 4096];
    let mut text = [0u8; 65536];
    // How many uses and lengths the lent lists take.
    let (m, k) = match edit {
        Edit::Glue => (v[2], v[3]),
        _ => (v[1], v[2]),
    };
    let m = usize::from(m).min(4096);
    let k = usize::from(k).min(4096);
    let a = edit.apply(v, wire, file, &mut uses[..m], &mut lens[..k]);
    let n = put_answer(a, &uses, &lens, &mut text);
    console::print_first(rt, &text, n)
}

fn replay_line(rt: &HostRuntime, file: &[u8], line: &[u8]) -> io::Result<()> {
    rt.write_all(line)?;
    rt.write_all(b"\n")?;
    if line.len() > 4096 {
        return Ok(());
    }
    let end = word_end(line, 0);
    let Some(edit) = Edit::named(&line[..end]) else {
        return Ok(());
    };
    let mut values = [0u64; 2048];
    let mut small = [0u16; 2048];
    let m = put_values(
        &line[end..],
        &edit.kinds(),
        Some(WordKind::Signed),
        &mut values,
    );
    if !edit.takes(m) {
        return Ok(());
    }
    put_saturated(&values, &mut small, 0);
    match small.get(3..m.words) {
        Some(wire) => replay_edit(rt, edit, &small, wire, file),
        None => Ok(()),
    }
}

fn replay(rt: &HostRuntime, file: &[u8], lines: &[u8]) -> io::Result<()> {
    for line in lines.split_inclusive(|b| *b == b'\n') {
        replay_line(rt, file, without_feed(line))?;
    }
    Ok(())
}

fn main(rt: HostRuntime) -> io::Result<()> {
    // One byte more than the longest file.
    let mut bytes = [0u8; 41049];
    console::each_pair(&rt, &mut bytes, |file, lines| replay(&rt, file, lines))
}
