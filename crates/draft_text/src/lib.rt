// A pattern file from text.
#![tactic(auto)]

ghost use Rattle.std.specs.Prelude.{◌≡◌, ℕ, Result, Ok, [], ◌≤◌, ◌*◌, length, get_or};
ghost use Rattle.draft_forms.specs.LineForms.{line_kind};
ghost use Rattle.draft_forms.specs.declared.LineKind.TheVariants.{Comment};
ghost use Rattle.draft_parts.specs.Parts.{joined};
ghost use Rattle.pattern.specs.Checks.{count_faults};
ghost use Rattle.pattern.specs.Contents.{content, counts_of};
ghost use Rattle.store.specs.Store.{count_table, held};
ghost use Rattle.text.specs.Text.{lines, words};
ghost use Rattle.draft_text.specs.Gathering.{Read, first_wrong, read_faults, stopped};
ghost use Rattle.draft_text.specs.TextPattern.{first_made, gathered, has_mark, line_faults, line_parts, line_with, made, made_in, said, text_faults, text_file};
ghost use Rattle.draft_text.specs.declared.DraftError.{DraftError};
ghost use Rattle.draft_text.specs.declared.Fault.TheVariants.{Refused};

use draft_forms::{LineKind, body_counted, kind_of, match_line};
use draft_parts::{add_values, counts_after, is_bare, needed};
use errors::Refusal;
use pattern::{BODIES, Counts, LONGEST, check_counts};
use store::{SPANS, Spans, TABLES, Tables, counts_in, tables_known};
use store_check::check_records;
use store_write::put_file;
use text::next_line;

// What is wrong with a line: a word, counted from 1, of a line of a kind; its number, where another is
// expected after the lines of its kind before; or a refusal of the reading checks.
#[derive(Clone, Copy)]
pub enum Fault {
    Word(LineKind, usize),
    Number(LineKind, usize),
    Refused(Refusal),
}

// Why a text is refused: a fault, with the number of its line; or a text of more than 262,144 bytes,
// one that begins with a byte order mark, one that says nothing, not even that the pattern is empty, one that
// says so beside records.
#[derive(Clone, Copy)]
pub enum DraftError {
    At(usize, Fault),
    TooLong,
    Marked,
    Nothing,
    NotEmpty,
}

// The reading checks' refusal of a line.
impl From<Refusal> for Fault {
    ghost from_gives = { λ f r. r ≡ Refused f };

    fn from(f: Refusal) -> Fault {
        Fault::Refused(f)
    }
}

// A line read: its kind, how many values it has, and whether its words are right.
#[derive(Clone, Copy)]
struct Line {
    kind: LineKind,
    words: usize,
    check: Result<(), Fault>,
}

// Reads the words of a line after records with these counts.
fn read_line(line: &[u8], counts: Counts, values: &mut [u64]) -> Line
    requires { length line.now ≤ 2 * length values.old }
    ensures kind_value { (result.kind ≡ line_kind (words line.now)) × (result.check ≡ first_wrong (read_faults counts (words line.now))) }
    ensures read { result.check ≡ Ok tt → (result.kind ≡ Comment → ⊥) → Read (words line.now) result.words values.new }
{
    let first = kind_of(line);
    let kind = first.kind;
    if let LineKind::Comment = kind {
        return Line {
            kind,
            words: 0,
            check: Ok(()),
        };
    }
    if let LineKind::Unknown = kind {
        return Line {
            kind,
            words: 0,
            check: Err(Fault::Word(kind, 1)),
        };
    }
    let m = match_line(kind, first.rest, values);
    let n = m.words;
    if n > 0 {
        let next = counts[body_counted(kind)];
        if values[0] != next as u64 {
            return Line {
                kind,
                words: n,
                check: Err(Fault::Number(kind, next)),
            };
        }
    }
    if !m.all {
        return Line {
            kind,
            words: n,
            check: Err(Fault::Word(kind, n + 2)),
        };
    }
    if n < needed(kind) {
        return Line {
            kind,
            words: n,
            check: Err(Fault::Word(kind, n + 2)),
        };
    }
    Line {
        kind,
        words: n,
        check: Ok(()),
    }
}

// Adds what a line says to the store, if nothing is wrong with it.
fn add_line(line: &[u8], t: &mut Tables, spans: &mut Spans, values: &mut [u64]) -> Result<(), Fault>
    requires { (length line.now ≤ 2 * length values.old) × (count_faults (count_table t.old) ≡ []) }
    ensures value { result ≡ first_wrong (line_faults (content (held t.old spans.old)) (words line.now)) }
    ensures t_after { result ≡ Ok tt → (count_faults (count_table t.new) ≡ []) × (content (held t.new spans.new) ≡ joined (content (held t.old spans.old)) (line_parts (words line.now))) }
{
    tables_known(t);
    let counts = counts_in(t);
    let read = read_line(line, counts, values);
    read.check?;
    let kind = read.kind;
    if let LineKind::Comment = kind {
        return Ok(());
    }
    let n = read.words;
    let after = counts_after(kind, &values[0..n], counts);
    check_counts(after)?;
    add_values(kind, &values[0..n], t, spans);
    Ok(())
}

// Adds what the lines of a text say to the store, up to the first that is wrong.
fn gather(
    text: &[u8],
    t: &mut Tables,
    spans: &mut Spans,
    values: &mut [u64],
) -> Result<(), DraftError>
    requires { (length text.now ≤ 2 * length values.old) × (count_faults (count_table t.old) ≡ []) }
    ensures m_value { (m : Result ℕ DraftError) → first_made (text_faults (content (held t.old spans.old)) 1 (lines text.now)) m ≡ stopped result m }
    ensures t_after { result ≡ Ok tt → (count_faults (count_table t.new) ≡ []) × (content (held t.new spans.new) ≡ gathered (content (held t.old spans.old)) (lines text.now)) }
{
    let mut left = text;
    let mut number: usize = 1;
    while let Some((line, next)) = next_line(left) {
        if let Err(f) = add_line(line, t, spans, values) {
            return Err(DraftError::At(number, f));
        }
        number += 1;
        left = next;
    }
    Ok(())
}

// How many records of body b a line adds.
fn line_count(line: &[u8], b: usize, values: &mut [u64]) -> usize
    requires { length line.now ≤ 2 * length values.old }
    ensures { result ≡ get_or (counts_of (line_parts (words line.now))) b 0 }
{
    let first = kind_of(line);
    let kind = first.kind;
    let m = match_line(kind, first.rest, values);
    let n = m.words;
    let counts = counts_after(kind, &values[0..n], [0; BODIES]);
    if b < BODIES { counts[b] } else { 0 }
}

// The number of the line with record r of body b.
fn line_with(text: &[u8], b: usize, r: usize, values: &mut [u64]) -> usize
    requires { length text.now ≤ 2 * length values.old }
    ensures { result ≡ line_with b r 1 (lines text.now) }
{
    let mut left = text;
    let mut before = r;
    let mut number: usize = 1;
    while let Some((line, next)) = next_line(left) {
        let n = line_count(line, b, values);
        if before < n {
            return number;
        }
        before -= n;
        number += 1;
        left = next;
    }
    number
}

// Whether a line says that the pattern is empty.
fn says_empty(text: &[u8]) -> bool
    ensures { result ≡ said (lines text.now) }
{
    let mut left = text;
    while let Some((line, next)) = next_line(left) {
        if let LineKind::Empty = kind_of(line).kind {
            return true;
        }
        left = next;
    }
    false
}

// Whether a text begins with a byte order mark.
fn is_marked(text: &[u8]) -> bool
    ensures { result ≡ has_mark text.now }
{
    matches!(
        text,
        [0xef, 0xbb, 0xbf, ..] | [0xfe, 0xff, ..] | [0xff, 0xfe, ..]
    )
}

// Reads a text, and writes the file of its pattern.
pub fn make(text: &[u8], out: &mut [u8; LONGEST]) -> Result<usize, DraftError>
    ensures { (result ≡ made text.now) × (out.new ≡ made_in (made text.now) (text_file text.now) out.old) }
{
    if text.len() > 262144 {
        return Err(DraftError::TooLong);
    }
    if is_marked(text) {
        return Err(DraftError::Marked);
    }
    let mut t = [0u16; TABLES];
    let mut spans = [0.0; SPANS];
    let mut values = [0u64; 131072];
    gather(text, &mut t, &mut spans, &mut values)?;
    tables_known(&t);
    let bare = is_bare(counts_in(&t));
    if bare != says_empty(text) {
        if bare {
            return Err(DraftError::Nothing);
        }
        return Err(DraftError::NotEmpty);
    }
    if let Err(f) = check_records(&t, &spans) {
        let line = line_with(text, f.body(), f.record(), &mut values);
        return Err(DraftError::At(line, Fault::Refused(f)));
    }
    // `out` has room for the longest file.
    put_file(&t, &spans, out).map_err(|_| DraftError::TooLong)
}
