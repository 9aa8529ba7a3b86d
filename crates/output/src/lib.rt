// What the programs print: texts, decimal numbers and the line of a refusal, as bytes. A function that writes takes the
// place and returns the place after it, and a contract says by `sets` which bytes stand where; a struct of bytes and place
// with methods would not be plainer, since each contract and each proof would still speak of both.
#![tactic(auto)]

ghost use Rattle.std.specs.Prelude.{◌≡◌, ◌++◌, ◌+◌, ◌≤◌, length};
ghost use Rattle.std.proofs.lemmas.List.Edits.{sets};
ghost use Rattle.output.specs.Text.{decimal, refusal_line};

use errors::Refusal;

// Writes a text from `at` on, and returns the place after it. Byte by byte: `copy_from_slice` may call memmove, which a client of
// the static library need not have.
pub fn put_text(out: &mut [u8], at: usize, text: &[u8]) -> usize
    requires { at + length text.now ≤ length out.old }
    ensures { (out.new ≡ sets out.old at text.now) × (result ≡ at + length text.now) }
{
    for (i, b) in text.iter().enumerate() {
        out[at + i] = *b;
    }
    at + text.len()
}

// Writes a number in decimal from `at` on, and returns the place after it.
pub fn put_decimal(out: &mut [u8], at: usize, n: usize) -> usize
    requires { at + length (decimal n) ≤ length out.old }
    ensures { (out.new ≡ sets out.old at (decimal n)) × (result ≡ at + length (decimal n)) }
{
    if n < 10 {
        out[at] = 48 + n as u8;
        return at + 1;
    }
    let last = put_decimal(out, at, n / 10);
    out[last] = 48 + (n % 10) as u8;
    last + 1
}

// Writes a text and a number after it.
pub fn put_field(out: &mut [u8], at: usize, text: &[u8], n: usize) -> usize
    requires { at + length (text.now ++ decimal n) ≤ length out.old }
    ensures { (out.new ≡ sets out.old at (text.now ++ decimal n)) × (result ≡ at + length (text.now ++ decimal n)) }
{
    let number = put_text(out, at, text);
    put_decimal(out, number, n)
}

// Writes the line of a refusal from the first place on, and returns its length.
pub fn put_refusal(f: Refusal, out: &mut [u8]) -> usize
    requires { 96 ≤ length out.old }
    ensures { (out.new ≡ sets out.old 0 (refusal_line f)) × (result ≡ length (refusal_line f)) × (result ≤ 96) }
{
    let n = f.number();
    let b = f.body();
    let k = f.record();
    let mut at = put_field(out, 0, b"refused ", n);
    at = put_field(out, at, b" body ", b);
    at = put_field(out, at, b" record ", k);
    put_text(out, at, b"\n")
}

// The same, for any refusal.
pub fn refusal_line(f: Refusal, out: &mut [u8; 96]) -> usize
    ensures { (out.new ≡ sets out.old 0 (refusal_line f)) × (result ≡ length (refusal_line f)) × (result ≤ 96) }
{
    put_refusal(f, out)
}
