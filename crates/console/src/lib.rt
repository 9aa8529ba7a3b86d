// What the programs share: their arguments and usage, standard input read to its end, the files that the
// arguments name, and texts that are printed. No contract says what a reader gave or a stream was given; the
// texts are proved where they are made.
#![tactic(auto)]

ghost use Rattle.std.specs.Prelude.{◌≡◌, ◌≤◌, length};
ghost use Rattle.console.specs.Help.{is_help};
ghost use Rattle.console.specs.Counts.{IsPrefixLen, Moved};
ghost use Rattle.console.specs.Lines.{without_feed};

mod words;

use errors::Refusal;
use std::env::FillError;
use std::fs::File;
use std::io;
use std::io::Read;
use std::rt::Env;
use std::str::from_utf8;
use text::name_of;
pub use words::{fail, say};

// Whether a word asks for help.
fn is_help(word: &[u8]) -> bool
    ensures { result ≡ is_help word.now }
{
    let name = name_of(word);
    if name == 0x12d2d68656c70 {
        return true;
    }
    name == 0x12d68
}

// Whether the program was started with argument k.
fn is_given(rt: &HostRuntime, k: usize) -> bool {
    let mut none = [0u8; 0];
    match rt.arg(k, &mut none) {
        Ok(_) => true,
        Err(FillError::TooLong) => true,
        Err(FillError::NotPresent) => false,
    }
}

// How many arguments the program was started with, its own name among them.
pub fn arg_count(rt: &HostRuntime) -> usize {
    for k in 0..usize::MAX {
        if !is_given(rt, k) {
            return k;
        }
    }
    usize::MAX
}

// Puts argument k at the start of the list and answers its length, or 0 where it is missing or longer than the
// list.
pub fn argument(rt: &HostRuntime, k: usize, word: &mut [u8]) -> usize
    ensures { IsPrefixLen result word.new }
{
    match rt.arg(k, word) {
        Ok(n) => n,
        Err(_) => 0,
    }
}

// Whether a program that takes no words was started with none. Where its only word asks for help, its usage
// goes to standard output, which `output` names; where it was started with others, to standard error.
pub fn is_alone(rt: &HostRuntime, output: &[u8], usage: &[u8]) -> bool {
    let given = arg_count(rt);
    if given == 1 {
        return true;
    }
    if given == 2 {
        let mut word = [0u8; 8];
        let n = argument(rt, 1, &mut word);
        if is_help(&word[..n]) {
            if let Err(e) = rt.write_all(usage) {
                fail(rt, output, e);
            }
            return false;
        }
    }
    let _ = rt.stderr().write_all(usage);
    false
}

// Reads until the list is full or the input ends, and answers how many bytes, or the error of a read that fails.
pub fn read_all<R: Read>(from: &mut R, bytes: &mut [u8]) -> io::Result<usize>
    ensures { Moved (length bytes.old) result }
{
    let mut done: usize = 0;
    // No `for`: each turn reads as many bytes as the reader gives.
    while done < bytes.len() {
        let more = from.read(&mut bytes[done..])?;
        if more == 0 {
            return Ok(done);
        }
        done += more;
    }
    Ok(done)
}

// Reads until the list is full, the input ends or a read fails, and answers how many bytes it put at the start
// of the list.
pub fn read_full<R: Read>(from: &mut R, bytes: &mut [u8]) -> usize
    ensures { IsPrefixLen result bytes.new }
{
    let mut done: usize = 0;
    // No `for`: each turn reads as many bytes as the reader gives.
    while done < bytes.len() {
        match from.read(&mut bytes[done..]) {
            Ok(0) => return done,
            Ok(more) => done += more,
            Err(_) => return done,
        }
    }
    done
}

// Reads the rest of an input that is longer than any that is taken.
fn drain<R: Read>(from: &mut R) -> io::Result<()> {
    let mut scratch = [0u8; 4096];
    for _ in 0..u64::MAX {
        if from.read(&mut scratch)? == 0 {
            break;
        }
    }
    Ok(())
}

// Reads an input to its end, and answers how many bytes it put at the start of the list.
fn read_whole<R: Read>(from: &mut R, bytes: &mut [u8]) -> io::Result<usize>
    ensures { Moved (length bytes.old) result }
{
    let n = read_all(from, bytes)?;
    if n == bytes.len() {
        drain(from)?;
    }
    Ok(n)
}

// Reads standard input to its end, and answers how many bytes it put at the start of the list: a list of
// one byte more than is taken is full where the input is too long. Where a read fails, at any place, it says
// why on standard error, after `input`, and answers the error.
pub fn read_input(rt: &HostRuntime, input: &[u8], bytes: &mut [u8]) -> io::Result<usize>
    ensures { Moved (length bytes.old) result }
{
    match read_whole(&mut rt.stdin(), bytes) {
        Ok(n) => Ok(n),
        Err(e) => {
            fail(rt, input, e);
            Err(e)
        }
    }
}

// The first n bytes, or nothing where there are fewer. Whether all was written.
// A length beside the bytes: what writes a text says that its length is n, and not that the list holds it; so that is looked at here.
pub fn print_first(to: &impl Print, bytes: &[u8], n: usize) -> io::Result<()> {
    match bytes.get(..n) {
        Some(first) => to.write_all(first),
        None => Err(io::Error::from(io::ErrorKind::InvalidInput)),
    }
}

// The line of a refusal, `output::refusal_line`. Whether all of it was written.
pub fn print_refusal(to: &impl Print, f: Refusal) -> io::Result<()> {
    let mut line = [0u8; 96];
    let length = output::refusal_line(f, &mut line);
    to.write_all(&line[..length])
}

// Argument k, of at most 64 bytes.
pub fn print_argument(rt: &HostRuntime, k: usize) -> io::Result<()> {
    let mut name = [0u8; 64];
    let length = argument(rt, k, &mut name);
    rt.write_all(&name[..length])
}

// The line that stands before what is said of the file that argument k names.
pub fn print_file_line(rt: &HostRuntime, k: usize) -> io::Result<()> {
    rt.write_all(b"file ")?;
    print_argument(rt, k)?;
    rt.write_all(b"\n")
}

// Opens the file that argument k names.
pub fn open_argument(rt: &HostRuntime, k: usize) -> io::Result<File> {
    let mut name = [0u8; 64];
    let length = argument(rt, k, &mut name);
    match from_utf8(&name[..length]) {
        Ok(path) => File::open(rt, path),
        Err(_) => Err(io::Error::from(io::ErrorKind::InvalidFilename)),
    }
}

// Reads the file that argument k names, and answers how many bytes it put at the start of the list; 0 where
// the file cannot be opened.
pub fn read_argument(rt: &HostRuntime, k: usize, bytes: &mut [u8]) -> usize
    ensures { IsPrefixLen result bytes.new }
{
    match open_argument(rt, k) {
        Ok(mut file) => read_full(&mut file, bytes),
        Err(_) => 0,
    }
}

// A line without the line feed at its end.
pub fn without_feed(line: &[u8]) -> &[u8]
    ensures { result.now ≡ without_feed line.now }
{
    line.strip_suffix(b"\n").unwrap_or(line)
}

// For each argument prints a line with its name, and then what `tell` prints of the file that it names.
pub fn each_file<F: FnMut(&mut File) -> io::Result<()>>(
    rt: &HostRuntime,
    mut tell: F,
) -> io::Result<()>
    requires { (f : _) (x : _) → F.pre f x }
{
    for k in 1..arg_count(rt) {
        print_file_line(rt, k)?;
        match open_argument(rt, k) {
            Ok(mut file) => tell(&mut file)?,
            Err(_) => rt.write_all(b"not found\n")?,
        }
    }
    Ok(())
}

// The same of the bytes of each file, as many as the lent list takes.
pub fn each_content<F: FnMut(&[u8]) -> io::Result<()>>(
    rt: &HostRuntime,
    bytes: &mut [u8],
    mut tell: F,
) -> io::Result<()>
    requires { (f : _) (x : _) → F.pre f x }
{
    each_file(rt, |file| {
        let n = read_full(file, bytes);
        tell(&bytes[..n])
    })
}

// For each pair of arguments prints a line with the name of the first, and then what `tell` prints of the bytes of the file
// that it names, as many as the lent list takes, and of the lines of the file that the second names.
pub fn each_pair<F: FnMut(&[u8], &[u8]) -> io::Result<()>>(
    rt: &HostRuntime,
    bytes: &mut [u8],
    mut tell: F,
) -> io::Result<()>
    requires { F.IsAlwaysCallable tell }
{
    let mut lines = [0u8; 16384];
    for k in (2..arg_count(rt)).step_by(2) {
        print_file_line(rt, k - 1)?;
        let n = read_argument(rt, k - 1, bytes);
        let m = read_argument(rt, k, &mut lines);
        tell(&bytes[..n], &lines[..m])?;
    }
    Ok(())
}
