// Names that are made of a path.
ghost use Rattle.std.specs.Prelude.{◌<◌, ◌≤◌, length, IfOk, IfSome};
ghost use Rattle.replace.specs.Paths.{Ended};

use crate::files::EINVAL;
use std::io;
use std::str::from_utf8;

// How many bytes C takes for a path, the 0 at its end among them.
pub const PATH_MAX: usize = 4096;

const LAST: usize = PATH_MAX - 1;

// Fills `to` from the start of `from`, as far as both go.
fn copy(from: &[u8], to: &mut [u8]) {
    let n = from.len().min(to.len());
    to[..n].copy_from_slice(&from[..n]);
}

// How many of the path's bytes C can be handed: all, or none where they are too many or one of them is 0.
fn taken(path: &[u8]) -> usize
    ensures { result ≤ length path.now }
{
    if path.len() >= PATH_MAX {
        return 0;
    }
    if path.contains(&0) {
        return 0;
    }
    path.len()
}

// The path as C takes it. One that C cannot be handed becomes the empty path, which names no file.
pub fn ended(path: &[u8]) -> [u8; PATH_MAX]
    ensures { Ended result }
{
    let mut ended = [0u8; PATH_MAX];
    let n = taken(path);
    copy(&path[0..n], &mut ended);
    ended[LAST] = 0;
    ended
}

// How many bytes C reads of a path that ends in 0: those before its first 0.
pub fn end_of(path: &[u8; PATH_MAX]) -> usize
    requires { Ended path.now }
    ensures { result < length path.now }
{
    path.iter().position(|b| *b == 0).unwrap_or(LAST)
}

// The path as std takes it.
pub fn text(path: &[u8]) -> io::Result<&str> {
    match from_utf8(path) {
        Ok(text) => Ok(text),
        Err(_) => Err(io::Error::new(io::ErrorKind::InvalidFilename, "its name is not UTF-8")),
    }
}

// Puts the path and `.XXXXXX`, for files::create_temp, into name, and answers how many bytes. It fails where they do not fit.
pub fn temporary(path: &[u8], name: &mut [u8]) -> io::Result<usize>
    ensures { IfOk result (λ n. n ≤ length name.new) }
{
    let n = path.len();
    let end = n + 7;
    if n >= PATH_MAX || end > name.len() {
        return Err(io::Error::from_raw_os_error(EINVAL));
    }
    copy(path, name);
    copy(b".XXXXXX", &mut name[n..]);
    Ok(end)
}

// A letter or a digit.
fn letter(random: u8) -> u8 {
    let letters = b"abcdefghijklmnopqrstuvwxyzABCDEFGHIJKLMNOPQRSTUVWXYZ0123456789";
    letters[(random % 62) as usize]
}

// Puts letters and digits that these random bytes choose in place of the name's last bytes.
pub fn complete(name: &mut [u8], random: &[u8; 6]) {
    let n = name.len();
    if n < 6 {
        return;
    }
    for k in 0..6 {
        name[n - 6 + k] = letter(random[k]);
    }
}

// Where the path's last `/` stands.
pub fn last_slash(path: &[u8]) -> Option<usize>
    ensures { IfSome result (λ n. n < length path.now) }
{
    path.iter().rposition(|b| *b == b'/')
}
