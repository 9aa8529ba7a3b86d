// The line that says what is wrong with a text.
#![tactic(auto)]

ghost use Rattle.std.specs.Prelude.{◌≡◌, ◌+◌, ◌≤◌, length};
ghost use Rattle.std.proofs.lemmas.List.Edits.{sets};
ghost use Rattle.draft_faults.specs.FaultLines.{fault_text, line_form, line_word, made_text, meaning};

use draft_forms::LineKind;
use draft_text::{DraftError, Fault};
use output::{put_field, put_text};

// The form of a line of this kind.
#[tactic(auto, unfolding(crate::specs::FaultLines::line_form))]
fn form_of(kind: LineKind) -> &'static [u8]
    ensures { (result.now ≡ line_form kind) × (length result.now ≤ 80) }
{
    match kind {
        LineKind::Point => b"point NUMBER label LABEL\n",
        LineKind::Edge => b"edge NUMBER from POINT to POINT span T0 T1\n",
        LineKind::Face => b"face NUMBER surface SURFACE wire USE .. wire USE ..\n",
        LineKind::Empty => b"empty\n",
        _ => b"shell NUMBER faces LISTING ..\n",
    }
}

// The word of a line of this kind, which has a number.
#[tactic(auto, unfolding(crate::specs::FaultLines::line_word))]
fn word_of(kind: LineKind) -> &'static [u8]
    ensures { (result.now ≡ line_word kind) × (length result.now ≤ 80) }
{
    match kind {
        LineKind::Point => b": point ",
        LineKind::Edge => b": edge ",
        LineKind::Face => b": face ",
        _ => b": shell ",
    }
}

// The meaning of refusal n.
#[tactic(auto, unfolding(crate::specs::FaultLines::meaning))]
fn meaning(n: usize) -> &'static [u8]
    ensures { (result.now ≡ meaning n) × (length result.now ≤ 80) }
{
    match n {
        2 => b": more records than the limit\n",
        3 => b": a number that names nothing\n",
        4 => b": bad span\n",
        5 => b": an edge from a point to itself\n",
        6 => b": a wire without uses\n",
        7 => b": a wire that is not closed\n",
        8 => b": a wire that meets a point twice, or meets an earlier wire of its face\n",
        _ => b": file layout\n",
    }
}

// Writes what is wrong from `at` on, and returns the place after it.
fn put_fault(out: &mut [u8], at: usize, f: Fault) -> usize
    requires { at + 160 ≤ length out.old }
    ensures { (out.new ≡ sets out.old at (fault_text f)) × (result ≡ at + length (fault_text f)) × (result ≤ at + 160) }
{
    match f {
        Fault::Word(kind, w) => {
            if let LineKind::Unknown = kind {
                return put_text(
                    out,
                    at,
                    b": begin with point, edge, face, shell, empty or #\n",
                );
            }
            let mut end = put_field(out, at, b": word ", w);
            end = put_text(out, end, b" of ");
            put_text(out, end, form_of(kind))
        }
        Fault::Number(kind, n) => {
            let end = put_field(out, at, word_of(kind), n);
            put_text(out, end, b" is expected\n")
        }
        Fault::Refused(r) => {
            let n = r.number();
            let end = put_field(out, at, b": refused ", n);
            put_text(out, end, meaning(n))
        }
    }
}

// Writes the line that says what is wrong, if anything, and returns its length.
pub fn put_made(m: Result<usize, DraftError>, out: &mut [u8; 256]) -> usize
    ensures { (out.new ≡ sets out.old 0 (made_text m)) × (result ≡ length (made_text m)) × (result ≤ 256) }
{
    let Err(e) = m else {
        return 0;
    };
    match e {
        DraftError::TooLong => put_text(out, 0, b"over 262144 bytes\n"),
        DraftError::Marked => put_text(
            out,
            0,
            b"begins with a byte order mark: save the text as UTF-8 without one\n",
        ),
        DraftError::Nothing => put_text(
            out,
            0,
            b"says nothing: no point, edge, face or shell (a line \"empty\" makes an empty pattern)\n",
        ),
        DraftError::NotEmpty => put_text(
            out,
            0,
            b"has a line \"empty\", and points, edges, faces or shells too\n",
        ),
        DraftError::At(line, f) => {
            let at = put_field(out, 0, b"line ", line);
            put_fault(out, at, f)
        }
    }
}
