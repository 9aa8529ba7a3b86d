// The lines that `report` prints of a shell and of a solid, as bytes. Each function writes from `at`
// on, and returns the place after what it wrote.
#![tactic(auto)]

ghost use Rattle.std.specs.Prelude.{◌≡◌, [], ◌∷◌, map, ◌+◌, ◌<◌, ◌≤◌, leb, length};
ghost use Rattle.std.proofs.lemmas.List.Edits.{sets};
ghost use Rattle.lists.specs.Lists.{flat, pick, split, sum};
ghost use Rattle.output.specs.Text.{ascii};
ghost use Rattle.lines.specs.Lines.{signed, shell_lines, solid_line};
ghost use Rattle.lines.specs.Parts.{item, word_line, word_lines, word_number, word_numbers, condition_line, connected_line, head_lines, opening_lines, component_lines, refused_line, Fits};

use condition::Condition;
use output::{put_decimal, put_field, put_text};

// The byte after the number of a use or listing.
fn sign_of(u: u16) -> u8
    ensures { result ∷ [] ≡ pick (leb 32768 u) (ascii "-") (ascii "+") }
{
    if 32768 <= u {
        return b'-';
    }
    b'+'
}

// Writes a use or listing: its number and + or -.
fn put_signed(out: &mut [u8], at: usize, u: u16) -> usize
    requires { at + length (signed u) ≤ length out.old }
    ensures { (out.new ≡ sets out.old at (signed u)) × (result ≡ at + length (signed u)) }
{
    let sign = sign_of(u);
    let end = put_decimal(out, at, usize::from(u % 32768));
    out[end] = sign;
    end + 1
}

// Writes a space, and a use or listing after it.
fn put_item(out: &mut [u8], at: usize, u: u16) -> usize
    requires { at + length (item u) ≤ length out.old }
    ensures { (out.new ≡ sets out.old at (item u)) × (result ≡ at + length (item u)) }
{
    out[at] = b' ';
    put_signed(out, at + 1, u)
}

// Writes the uses or listings of a line.
pub fn put_items(out: &mut [u8], at: usize, us: &[u16]) -> usize
    requires { at + length (flat (map item us.now)) ≤ length out.old }
    ensures { (out.new ≡ sets out.old at (flat (map item us.now))) × (result ≡ at + length (flat (map item us.now))) }
{
    let mut end = at;
    for u in us {
        end = put_item(out, end, *u);
    }
    end
}

// Writes a line: a word, and uses or listings after it.
fn put_line(out: &mut [u8], at: usize, word: &[u8], us: &[u16]) -> usize
    requires { at + length (word_line word.now us.now) ≤ length out.old }
    ensures { (out.new ≡ sets out.old at (word_line word.now us.now)) × (result ≡ at + length (word_line word.now us.now)) }
{
    let items = put_text(out, at, word);
    let end = put_items(out, items, us);
    out[end] = b'\n';
    end + 1
}

// Writes a line for each part of `items`; `lens` has the lengths of the parts.
fn put_lines(out: &mut [u8], at: usize, word: &[u8], items: &[u16], lens: &[u16]) -> usize
    requires { (sum lens.now ≡ length items.now) × (at + length (word_lines word.now lens.now items.now) ≤ length out.old) }
    ensures { (out.new ≡ sets out.old at (word_lines word.now lens.now items.now)) × (result ≡ at + length (word_lines word.now lens.now items.now)) }
{
    let mut end = at;
    let mut start: usize = 0;
    for len in lens {
        let n = usize::from(*len);
        end = put_line(out, end, word, &items[start..start + n]);
        start += n;
    }
    end
}

// Writes a line: a word, and a number after it.
pub fn put_number(out: &mut [u8], at: usize, word: &[u8], n: usize) -> usize
    requires { at + length (word_number word.now n) ≤ length out.old }
    ensures { (out.new ≡ sets out.old at (word_number word.now n)) × (result ≡ at + length (word_number word.now n)) }
{
    let last = put_field(out, at, word, n);
    out[last] = b'\n';
    last + 1
}

// Writes a line with the word for each number.
fn put_numbers(out: &mut [u8], at: usize, word: &[u8], points: &[u16]) -> usize
    requires { at + length (word_numbers word.now points.now) ≤ length out.old }
    ensures { (out.new ≡ sets out.old at (word_numbers word.now points.now)) × (result ≡ at + length (word_numbers word.now points.now)) }
{
    let mut end = at;
    for point in points {
        end = put_number(out, end, word, usize::from(*point));
    }
    end
}

// Writes the line of the condition.
fn put_condition(out: &mut [u8], at: usize, condition: Condition) -> usize
    requires { at + 20 ≤ length out.old }
    ensures { (out.new ≡ sets out.old at (condition_line condition.0)) × (result ≡ at + length (condition_line condition.0)) }
{
    match condition {
        Condition::IRREGULAR => put_text(out, at, b"condition Irregular\n"),
        Condition::REGULAR => put_text(out, at, b"condition Regular\n"),
        Condition::ORIENTED => put_text(out, at, b"condition Oriented\n"),
        _ => put_text(out, at, b"condition Closed\n"),
    }
}

// Writes the line that says whether the shell is connected, a plain yes or no, as here in all functions.
fn put_connected(out: &mut [u8], at: usize, connected: bool) -> usize
    requires { at + 14 ≤ length out.old }
    ensures { (out.new ≡ sets out.old at (connected_line connected)) × (result ≡ at + length (connected_line connected)) }
{
    if connected {
        return put_text(out, at, b"connected yes\n");
    }
    put_text(out, at, b"connected no\n")
}

// Writes the number of the shell, its condition, and whether it is connected.
fn put_head(out: &mut [u8], at: usize, n: usize, condition: Condition, connected: bool) -> usize
    requires { (n < 100) × (at + 43 ≤ length out.old) }
    ensures { (out.new ≡ sets out.old at (head_lines n condition.0 connected)) × (result ≡ at + length (head_lines n condition.0 connected)) }
{
    let second = put_number(out, at, b"shell ", n);
    let third = put_condition(out, second, condition);
    put_connected(out, third, connected)
}

// Writes the openings and the number of lookups.
fn put_openings(out: &mut [u8], at: usize, uses: &[u16], lens: &[u16], lookups: usize) -> usize
    requires { (sum lens.now ≡ length uses.now) × (at + length (opening_lines lens.now uses.now lookups) ≤ length out.old) }
    ensures { (out.new ≡ sets out.old at (opening_lines lens.now uses.now lookups)) × (result ≡ at + length (opening_lines lens.now uses.now lookups)) }
{
    let end = put_lines(out, at, b"opening", uses, lens);
    put_number(out, end, b"lookups ", lookups)
}

// Writes the components and the singular points.
fn put_components(out: &mut [u8], at: usize, pairs: &[u16], plens: &[u16], points: &[u16]) -> usize
    requires { (sum plens.now ≡ length pairs.now) × (at + length (component_lines plens.now pairs.now points.now) ≤ length out.old) }
    ensures { (out.new ≡ sets out.old at (component_lines plens.now pairs.now points.now)) × (result ≡ at + length (component_lines plens.now pairs.now points.now)) }
{
    let end = put_lines(out, at, b"component", pairs, plens);
    put_numbers(out, end, b"singular ", points)
}

// Writes the lines of shell n.
pub fn put_shell(
    out: &mut [u8],
    at: usize,
    n: usize,
    condition: Condition,
    connected: bool,
    uses: &[u16],
    lens: &[u16],
    lookups: usize,
    pairs: &[u16],
    plens: &[u16],
    points: &[u16],
) -> usize
    requires { Fits out.old at n lookups uses.now lens.now pairs.now plens.now points.now }
    ensures { (out.new ≡ sets out.old at (shell_lines n (record { condition = condition.0; connected = connected; openings = split lens.now uses.now; lookups = lookups; components = split plens.now pairs.now; singular = points.now }))) × (result ≡ at + length (shell_lines n (record { condition = condition.0; connected = connected; openings = split lens.now uses.now; lookups = lookups; components = split plens.now pairs.now; singular = points.now }))) × (result ≤ at + 70300) }
{
    let openings = put_head(out, at, n, condition, connected);
    let components = put_openings(out, openings, uses, lens, lookups);
    put_components(out, components, pairs, plens, points)
}

// Writes the line of a refused solid.
fn put_refused(out: &mut [u8], at: usize, number: usize, shell: usize) -> usize
    requires { (number < 100) × (shell < 100) × (at + 26 ≤ length out.old) }
    ensures { (out.new ≡ sets out.old at (refused_line number shell)) × (result ≡ at + length (refused_line number shell)) }
{
    let end = put_field(out, at, b"solid refused ", number);
    put_number(out, end, b" shell ", shell)
}

// Writes the line of a solid; if it is refused, with the number of the refusal and the shell.
pub fn put_solid(out: &mut [u8], at: usize, accepted: bool, number: usize, shell: usize) -> usize
    requires { (number < 100) × (shell < 100) × (at + 64 ≤ length out.old) }
    ensures { (out.new ≡ sets out.old at (solid_line accepted number shell)) × (result ≡ at + length (solid_line accepted number shell)) × (result ≤ at + 64) }
{
    if accepted {
        return put_text(out, at, b"solid accepted\n");
    }
    put_refused(out, at, number, shell)
}
