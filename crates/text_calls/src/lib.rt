// A pattern file made from text, as a call: its answer as numbers, and the sentence that says what is wrong.
#![tactic(auto)]

ghost use Rattle.std.specs.Prelude.{◌≡◌, [], ◌∷◌};
ghost use Rattle.std.proofs.lemmas.List.Edits.{sets};
ghost use Rattle.answers.specs.Values.{answer};
ghost use Rattle.draft_faults.specs.FaultLines.{made_text};
ghost use Rattle.draft_text.specs.TextPattern.{made, made_in, made_reply, text_file};
ghost use Rattle.errors.specs.Numbers.{refused as refusedReply};
ghost use Rattle.text_calls.specs.TextCalls.{draft_answer, with_length};

use answers::Answer;
use draft_faults::put_made;
use draft_text::{DraftError, Fault, make};
use pattern::LONGEST;

// Refused: the number of the refusal, the line, the word or the number that is expected, the length of the sentence.
fn refused(number: usize, line: usize, word: usize, length: usize) -> Answer
    ensures { result ≡ answer (refusedReply number (line ∷ word ∷ length ∷ [])) }
{
    Answer {
        outcome: 2,
        number,
        first: line,
        second: word,
        third: length,
        fourth: 0,
    }
}

// The answer of a text that is made so, with a sentence of this length.
fn made_values(m: Result<usize, DraftError>, length: usize) -> Answer
    ensures { result ≡ answer (with_length (made_reply m) length) }
{
    match m {
        Ok(n) => answers::done_with(n, 0, length),
        Err(DraftError::At(line, f)) => match f {
            Fault::Word(k, w) => refused(0, line, w, length),
            Fault::Number(k, n) => refused(0, line, n, length),
            Fault::Refused(r) => refused(r.number(), line, 0, length),
        },
        Err(_) => refused(0, 0, 0, length),
    }
}

// Makes the pattern file of a text, and writes it to `out`; or writes the sentence that says what is wrong to `said`.
pub fn draft(text: &[u8], out: &mut [u8; LONGEST], said: &mut [u8; 256]) -> Answer
    ensures value { result ≡ draft_answer (made text.now) }
    ensures out_after { (out.new ≡ made_in (made text.now) (text_file text.now) out.old) × (said.new ≡ sets said.old 0 (made_text (made text.now))) }
{
    let m = make(text, out);
    let length = put_made(m, said);
    made_values(m, length)
}
