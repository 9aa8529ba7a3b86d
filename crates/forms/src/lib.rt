// The values of the words of a line, by the form of the line.
#![tactic(auto)]

ghost use Rattle.std.specs.Prelude.{◌≡◌, ◌+◌, ◌*◌, ◌≤◌, Some, eqb, get_or, length, map};
ghost use Rattle.std.proofs.lemmas.List.Edits.{sets};
ghost use Rattle.text.specs.Text.{words};
ghost use Rattle.forms.specs.Forms.{below as belowOf, label, said, token, values};

use decimals::real_of;
use text::{name_of, next_word, number_of, signed_of};

// What a word must be.
#[derive(Clone, Copy)]
pub enum WordKind {
    Number,
    // A use or a listing.
    Signed,
    // An f64.
    Real,
    // An f64, or `nowhere`.
    Parameter,
    // A use, or `wire`.
    Wires,
    // A number below 65,536.
    Short,
    Label,
    // The word that has this name; no word where it is 0. The name is a number: a slice here would bring the place that
    // it lies at into the definitions, and an enum of words would have `put_values` take fewer.
    Named(u64),
}

// A number below n.
fn below(n: u64, number: Option<u64>) -> Option<u64>
    ensures { result ≡ belowOf n number }
{
    let m = number?;
    if m < n { Some(m) } else { None }
}

// A label: one to ten digits, below 2^32.
fn label_of(word: &[u8]) -> Option<u64>
    ensures { result ≡ label word.now }
{
    if word.len() <= 9 {
        return number_of(word);
    }
    if word.len() > 10 {
        return None;
    }
    let m = number_of(&word[0..9])?;
    let d = number_of(&word[9..10])?;
    below(4294967296, Some(m * 10 + d))
}

// What a word of this kind says.
#[tactic(auto, unfolding(crate::specs::Forms::token))]
fn token_of(kind: WordKind, word: &[u8]) -> Option<u64>
    ensures { result ≡ token kind word.now }
{
    match kind {
        WordKind::Number => number_of(word),
        WordKind::Signed => signed_of(word),
        WordKind::Real => real_of(word),
        WordKind::Parameter => match word {
            b"nowhere" => Some(0x7ff8000000000000),
            _ => real_of(word),
        },
        WordKind::Wires => match word {
            b"wire" => Some(65536),
            _ => signed_of(word),
        },
        WordKind::Short => below(65536, number_of(word)),
        WordKind::Label => label_of(word),
        WordKind::Named(name) => {
            if name != 0 && name_of(word) == name {
                return Some(65536);
            }
            None
        }
    }
}

// What a word says where one of this kind may stand, or none.
fn said_by(kind: Option<WordKind>, word: &[u8]) -> Option<u64>
    ensures { result ≡ said kind word.now }
{
    token_of(kind?, word)
}

fn kind_at(kinds: &[WordKind], rest: Option<WordKind>, i: usize) -> Option<WordKind>
    ensures { result ≡ get_or (map Some kinds.now) i rest }
{
    kinds.get(i).copied().or(rest)
}

// How many words were read, and whether they are all. No `Result`: the number counts in both cases.
#[derive(Clone, Copy)]
pub struct Matched {
    pub words: usize,
    pub all: bool,
}

// Writes the values of the words of a line, up to the first that is not of its kind.
pub fn put_values(
    line: &[u8],
    kinds: &[WordKind],
    rest: Option<WordKind>,
    out: &mut [u64],
) -> Matched
    requires { length line.now ≤ 2 * length out.old }
    ensures out_after { out.new ≡ sets out.old 0 (values kinds.now rest 0 (words line.now)) }
    ensures words_value { result.words ≡ length (values kinds.now rest 0 (words line.now)) }
    ensures all_value { result.all ≡ eqb (length (values kinds.now rest 0 (words line.now))) (length (words line.now)) }
{
    let mut left = line;
    let mut i: usize = 0;
    while let Some((word, next)) = next_word(left) {
        let Some(v) = said_by(kind_at(kinds, rest, i), word) else {
            return Matched {
                words: i,
                all: false,
            };
        };
        out[i] = v;
        i += 1;
        left = next;
    }
    Matched {
        words: i,
        all: true,
    }
}
