// The lines of a text that describes a pattern: their kinds, and the values of their words.
#![tactic(auto)]

ghost use Rattle.std.specs.Prelude.{◌≡◌, ◌*◌, ◌≤◌, eqb, drop, length};
ghost use Rattle.std.proofs.lemmas.List.Edits.{sets};
ghost use Rattle.text.specs.Text.{words};
ghost use Rattle.forms.specs.Forms.{values};
ghost use Rattle.draft_forms.specs.LineForms.{body_counted, further_kind, kind_named, line_kind, word_kinds};

use forms::{Matched, WordKind, put_values};
use text::{name_of, next_word};

// What a line is, by its first word.
#[derive(Clone, Copy)]
pub enum LineKind {
    Point,
    Edge,
    Face,
    Shell,
    // No words, or a comment.
    Comment,
    // It says that the pattern has no point, edge, face and shell.
    Empty,
    // None of these.
    Unknown,
}

// Which kind of line a name asks for.
#[tactic(auto, unfolding(crate::specs::LineForms::kind_named))]
fn kind_named(name: &[u8]) -> LineKind
    ensures { result ≡ kind_named name.now }
{
    match name {
        b"point" => LineKind::Point,
        b"edge" => LineKind::Edge,
        b"face" => LineKind::Face,
        b"shell" => LineKind::Shell,
        b"empty" => LineKind::Empty,
        _ => LineKind::Unknown,
    }
}

// The kind of a line, and what follows its first word.
#[derive(Clone, Copy)]
pub struct Kind<'a> {
    pub kind: LineKind,
    pub rest: &'a [u8],
}

pub fn kind_of(line: &[u8]) -> Kind<'_>
    ensures { (result.kind ≡ line_kind (words line.now)) × (words result.rest.now ≡ drop 1 (words line.now)) × (length result.rest.now ≤ length line.now) }
{
    let Some((word, rest)) = next_word(line) else {
        return Kind {
            kind: LineKind::Comment,
            rest: line,
        };
    };
    let kind = match word {
        [b'#', ..] => LineKind::Comment,
        _ => kind_named(word),
    };
    Kind { kind, rest }
}

// The values of the words after the first of a line of this kind.
#[tactic(auto, unfolding(crate::specs::LineForms::word_kinds, crate::specs::LineForms::further_kind))]
pub fn match_line(kind: LineKind, line: &[u8], out: &mut [u64]) -> Matched
    requires { length line.now ≤ 2 * length out.old }
    ensures out_after { out.new ≡ sets out.old 0 (values (word_kinds kind) (further_kind kind) 0 (words line.now)) }
    ensures words_value { result.words ≡ length (values (word_kinds kind) (further_kind kind) 0 (words line.now)) }
    ensures all_value { result.all ≡ eqb (length (values (word_kinds kind) (further_kind kind) 0 (words line.now))) (length (words line.now)) }
{
    match kind {
        LineKind::Point => {
            let kinds = [
                WordKind::Number,
                WordKind::Named(name_of(b"label")),
                WordKind::Label,
            ];
            put_values(line, &kinds, None, out)
        }
        LineKind::Edge => {
            let kinds = [
                WordKind::Number,
                WordKind::Named(name_of(b"from")),
                WordKind::Number,
                WordKind::Named(name_of(b"to")),
                WordKind::Number,
                WordKind::Named(name_of(b"span")),
                WordKind::Real,
                WordKind::Real,
            ];
            put_values(line, &kinds, None, out)
        }
        LineKind::Face => {
            let kinds = [
                WordKind::Number,
                WordKind::Named(name_of(b"surface")),
                WordKind::Short,
                WordKind::Named(name_of(b"wire")),
            ];
            put_values(line, &kinds, Some(WordKind::Wires), out)
        }
        LineKind::Shell => {
            let kinds = [WordKind::Number, WordKind::Named(name_of(b"faces"))];
            put_values(line, &kinds, Some(WordKind::Signed), out)
        }
        _ => put_values(line, &[], None, out),
    }
}

// The body whose records a line of this kind counts.
pub fn body_counted(kind: LineKind) -> usize
    ensures { (result ≡ body_counted kind) × (result ≤ 5) }
{
    match kind {
        LineKind::Point => 0,
        LineKind::Edge => 1,
        LineKind::Face => 4,
        _ => 5,
    }
}
