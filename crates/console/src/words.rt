// What is said on standard error.
ghost use Rattle.std.specs.Prelude.{◌≤◌, length};

use std::io;
use std::io::{Cursor, Write};

// What std puts between the system's words for an error and its number.
const NUMBER: &[u8] = b" (os error ";

// Writes a line to standard error: what failed, as the caller names it, a colon and the error's words.
pub fn fail(rt: &HostRuntime, what: &[u8], error: io::Error) {
    let mut text = Cursor::new([0u8; 128]);
    let _ = write!(text, "{error}");
    let said = text.into_inner();
    let n = words_end(&said);
    say(rt, what, &said[..n]);
}

// Writes a line to standard error: a name, a colon and words.
pub fn say(rt: &HostRuntime, name: &[u8], words: &[u8]) {
    let to = rt.stderr();
    let _ = Print::write_all(&to, name);
    let _ = Print::write_all(&to, b": ");
    let _ = Print::write_all(&to, words);
    let _ = Print::write_all(&to, b"\n");
}

// Where an error's words end: at its number, or at the zeros after the text.
fn words_end(text: &[u8]) -> usize
    ensures { result ≤ length text.now }
{
    for i in 0..text.len() {
        if text[i] == 0 || text[i..].starts_with(NUMBER) {
            return i;
        }
    }
    text.len()
}
