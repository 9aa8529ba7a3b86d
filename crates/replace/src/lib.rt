// A file read whole, and replaced whole and durably: its new bytes go into a new file beside it, which takes its name once the device holds them. What the system's calls do no contract says: the functions are proved safe and ending.
#![tactic(auto)]

ghost use Rattle.std.specs.Prelude.{◌≤◌, ◌≡◌, length, IfOk, IfSome};
ghost use Rattle.std.specs.Result.{result_ok};

mod files;
mod path;
mod status;

use console::{fail, read_all};
use status::Found;
use std::fs::{File, Permissions};
use std::io;
use std::io::Write;
use std::os::unix::fs::{PermissionsExt, fchown};

// How a replacement ended. Kept: the file has its old bytes. Unsynced: it has the new ones, and its directory could not be synced, so that a crash of the machine may bring the old ones back. Changed: the path does not name what was read any more, and others' bytes stay.
#[derive(Clone, Copy)]
pub enum Replaced {
    Done,
    Kept,
    Unsynced,
    Changed,
}

// A file that was read: how many bytes; the file, which is open, so that no other file gets its number; what the system told of it before the reading.
#[derive(Drop)]
pub struct Reading {
    pub count: usize,
    pub file: File,
    pub found: Found,
}

// Writes a line to standard error: the path, a colon and what is wrong.
pub fn say(rt: &HostRuntime, path: &[u8], what: &[u8]) {
    console::say(rt, path, what);
}

// What a call gave. Where it failed, says why on standard error.
fn given<T: Drop>(rt: &HostRuntime, path: &[u8], answer: io::Result<T>) -> Option<T>
    ensures { result ≡ result_ok answer }
{
    match answer {
        Ok(value) => Some(value),
        Err(e) => {
            fail(rt, path, e);
            None
        }
    }
}

// Whether the path names a regular file, and no link, that can be opened for reading. Where it does not, says why on standard error.
pub fn is_regular(rt: &HostRuntime, path: &[u8]) -> bool {
    status::is_regular(rt, path) && given(rt, path, files::open_read(rt, path)).is_some()
}

// Opens the file at path, which is regular and no link, and reads it into buf. Where it cannot, says why on standard error. Of a file that is longer than buf, buf has the first bytes: a caller lends one byte more than it takes.
pub fn read_file(rt: &HostRuntime, path: &[u8], buf: &mut [u8]) -> Option<Reading>
    ensures { IfSome result (λ read. read.count ≤ length buf.new) }
{
    if !status::is_regular(rt, path) {
        return None;
    }
    let read = open_and_read(rt, path, buf);
    given(rt, path, read)
}

// Opens the file at path, asks what it is, and reads it into buf.
fn open_and_read(rt: &HostRuntime, path: &[u8], buf: &mut [u8]) -> io::Result<Reading>
    ensures { IfOk result (λ read. read.count ≤ length buf.new) }
{
    let mut file = files::open_read(rt, path)?;
    let found = status::opened(&file)?;
    let count = read_all(&mut file, buf)?;
    Ok(Reading { count, file, found })
}

// Replaces the file at path, which was read, by bytes. What fails is said on standard error. Another name of the same file, a hard link, keeps the old bytes.
pub fn replace(rt: &HostRuntime, path: &[u8], bytes: &[u8], read: Reading) -> Replaced {
    if !is_writable(rt, path) {
        return Replaced::Kept;
    }
    // The longest path, and `.XXXXXX`.
    let mut name = [0u8; 4102];
    let Some(n) = given(rt, path, path::temporary(path, &mut name)) else {
        return Replaced::Kept;
    };
    match put(rt, path, &mut name[..n], bytes, read.found) {
        Replaced::Done => {
            if sync_directory(rt, path) {
                Replaced::Done
            } else {
                Replaced::Unsynced
            }
        }
        other => other,
    }
}

// Whether the file may be written, which its renaming would not ask. Where it may not, says why.
fn is_writable(rt: &HostRuntime, path: &[u8]) -> bool {
    given(rt, path, files::open_update(rt, path)).is_some()
}

// Makes the new file under the name, which files::create_temp completes, and gives it the path for its name if that names the old file still. Where a call fails, says why. Where the new file does not take the path's name, removes it.
fn put(rt: &HostRuntime, path: &[u8], name: &mut [u8], bytes: &[u8], old: Found) -> Replaced {
    let Some(file) = given(rt, path, files::create_temp(rt, name)) else {
        return Replaced::Kept;
    };
    if given(rt, path, store(file, bytes, old)).is_none() {
        remove(rt, name);
        return Replaced::Kept;
    }
    give_name(rt, path, name, old)
}

// Gives the new file, which is whole, the path for its name if that names the old file still.
fn give_name(rt: &HostRuntime, path: &[u8], name: &[u8], old: Found) -> Replaced {
    if !status::is_still(rt, path, old) {
        remove(rt, name);
        return Replaced::Changed;
    }
    if given(rt, path, files::rename(rt, name, path)).is_none() {
        remove(rt, name);
        return Replaced::Kept;
    }
    Replaced::Done
}

// Removes the new file. Where it stays, says its name and why.
fn remove(rt: &HostRuntime, name: &[u8]) {
    given(rt, name, files::unlink(rt, name));
}

// Writes the bytes into the new file, gives it the old one's owner, group and mode, and waits until the device holds it. The file is closed after it; of the closing std tells nothing, and the device holds the file by then.
fn store(mut file: File, bytes: &[u8], old: Found) -> io::Result<()> {
    file.write_all(bytes)?;
    give(&file, old)?;
    file.set_permissions(Permissions::from_mode(old.mode & 0o7777))?;
    file.sync_all()
}

// Gives the new file the old one's owner and group. Not everybody may give a file away: then it is its maker's, and has the old one's group all the same, or fails.
fn give(file: &File, old: Found) -> io::Result<()> {
    if fchown(file, Some(old.owner), Some(old.group)).is_ok() {
        return Ok(());
    }
    if fchown(file, None, Some(old.group)).is_ok() {
        return Ok(());
    }
    if status::opened(file).is_ok_and(|found| found.group == old.group) {
        return Ok(());
    }
    Err(io::Error::new(io::ErrorKind::PermissionDenied, "its group cannot be kept"))
}

// Syncs the directory that has the path's last name.
fn sync_directory(rt: &HostRuntime, path: &[u8]) -> bool {
    match path::last_slash(path) {
        None => sync(rt, b"."),
        Some(0) => sync(rt, b"/"),
        Some(n) => sync(rt, &path[..n]),
    }
}

// Waits until the device holds the directory. Where it cannot, says why and answers false.
fn sync(rt: &HostRuntime, directory: &[u8]) -> bool {
    given(rt, directory, files::sync(rt, directory)).is_some()
}
