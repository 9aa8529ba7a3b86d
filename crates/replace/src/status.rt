// What is known of a file, by its path or by an open file.
ghost use Rattle.std.specs.Prelude.{◌≡◌};
ghost use Rattle.replace.specs.Paths.{Ended};
ghost use Rattle.replace.specs.Same.{same_file};

use crate::path::{PATH_MAX, end_of, ended, text};
use console::{fail, say};
use std::fs::{File, Metadata};
use std::os::unix::fs::MetadataExt;
use std::{fs, io};

// The bits of a mode that say what kind of file it is, and two kinds.
const S_IFMT: u32 = 0o170000;

const S_IFLNK: u32 = 0o120000;

const S_IFREG: u32 = 0o100000;

// A time since 1970.
#[derive(Clone, Copy, PartialEq, Eq)]
pub struct Time {
    pub seconds: i64,
    pub nanoseconds: i64,
}

// What tells a file, unchanged, from others: its device and its number there, its size, when its bytes last changed and when anything of it did.
#[derive(Clone, Copy, PartialEq, Eq)]
pub struct Identity {
    pub device: u64,
    pub number: u64,
    pub size: u64,
    pub modified: Time,
    pub changed: Time,
}

// What the system tells of a file: what tells it from others, its mode, its owner and group.
#[derive(Clone, Copy)]
pub struct Found {
    pub identity: Identity,
    pub mode: u32,
    pub owner: u32,
    pub group: u32,
}

// The numbers of what the system told.
impl From<&Metadata> for Found {
    fn from(told: &Metadata) -> Found {
        Found {
            identity: Identity {
                device: told.dev(),
                number: told.ino(),
                size: told.size(),
                modified: Time {
                    seconds: told.mtime(),
                    nanoseconds: told.mtime_nsec(),
                },
                changed: Time {
                    seconds: told.ctime(),
                    nanoseconds: told.ctime_nsec(),
                },
            },
            mode: told.mode(),
            owner: told.uid(),
            group: told.gid(),
        }
    }
}

// Asks the system of the file at path, as C takes it, and at a link of the link.
fn ask(rt: &HostRuntime, path: &[u8; PATH_MAX]) -> io::Result<Found>
    requires { Ended path.now }
{
    let n = end_of(path);
    let told = fs::symlink_metadata(rt, text(&path[..n])?)?;
    Ok(Found::from(&told))
}

// What the path names, at a link the link. It opens nothing, so it waits for nobody at a named pipe.
pub fn named(rt: &HostRuntime, path: &[u8]) -> io::Result<Found> {
    let name = ended(path);
    ask(rt, &name)
}

// What an open file is.
pub fn opened(file: &File) -> io::Result<Found> {
    let told = file.metadata()?;
    Ok(Found::from(&told))
}

// Whether the path names a regular file, and no link. Where it does not, says why on standard error.
pub fn is_regular(rt: &HostRuntime, path: &[u8]) -> bool {
    match named(rt, path) {
        Ok(found) => is_regular_kind(rt, path, found.mode & S_IFMT),
        Err(e) => {
            fail(rt, path, e);
            false
        }
    }
}

// Whether a kind is that of a regular file. Where it is not, says why on standard error.
fn is_regular_kind(rt: &HostRuntime, path: &[u8], kind: u32) -> bool {
    if kind == S_IFLNK {
        say(rt, path, b"Is a symbolic link");
        return false;
    }
    if kind != S_IFREG {
        say(rt, path, b"Not a regular file");
        return false;
    }
    true
}

// Whether the two tell of one file, which was not changed in between.
fn same_file(a: Found, b: Found) -> bool
    ensures { result ≡ same_file a b }
{
    a.identity == b.identity
}

// Whether the path still names the file that the system told of, unchanged.
pub fn is_still(rt: &HostRuntime, path: &[u8], found: Found) -> bool {
    named(rt, path).is_ok_and(|there| same_file(there, found))
}
