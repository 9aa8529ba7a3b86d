// Wires in a line, and the line of a refused job. Each function writes from `at` on, and returns the
// place after what it wrote.
#![tactic(auto)]

ghost use Rattle.std.specs.Prelude.{◌≡◌, ◌+◌, ◌≤◌, length};
ghost use Rattle.std.proofs.lemmas.List.Edits.{sets};
ghost use Rattle.lists.specs.Lists.{split, sum};
ghost use Rattle.answer_lines.specs.AnswerLines.{refused_text, wire_text, wires_text};

use lines::{put_items, put_number};
use output::{put_field, put_text};

// Writes a wire: the word, and its uses.
fn put_wire(out: &mut [u8], at: usize, us: &[u16]) -> usize
    requires { at + length (wire_text us.now) ≤ length out.old }
    ensures { (out.new ≡ sets out.old at (wire_text us.now)) × (result ≡ at + length (wire_text us.now)) }
{
    let items = put_text(out, at, b" wire");
    put_items(out, items, us)
}

// Writes wires; `lens` has their lengths.
pub fn put_wires(out: &mut [u8], at: usize, us: &[u16], lens: &[u16]) -> usize
    requires { (sum lens.now ≡ length us.now) × (at + length (wires_text (split lens.now us.now)) ≤ length out.old) }
    ensures { (out.new ≡ sets out.old at (wires_text (split lens.now us.now))) × (result ≡ at + length (wires_text (split lens.now us.now))) }
{
    let mut end = at;
    let mut start: usize = 0;
    for len in lens {
        let n = usize::from(*len);
        end = put_wire(out, end, &us[start..start + n]);
        start += n;
    }
    end
}

// Writes the line of a refused job.
pub fn put_refused(
    out: &mut [u8],
    outcome: usize,
    number: usize,
    body: usize,
    place: usize,
) -> usize
    requires { 96 ≤ length out.old }
    ensures { (out.new ≡ sets out.old 0 (refused_text outcome number body place)) × (result ≡ length (refused_text outcome number body place)) × (result ≤ 96) }
{
    if outcome == 1 {
        let mut at = put_field(out, 0, b"refused ", number);
        at = put_field(out, at, b" body ", body);
        return put_number(out, at, b" record ", place);
    }
    put_number(out, 0, b"refused ", number)
}
