// std's calls on files that a path names.
use crate::path::{complete, text};
use std::fs::{File, OpenOptions};
use std::os::unix::fs::OpenOptionsExt;
use std::random::RandomSource;
use std::{fs, io};

// What a call answers where a file is there already, and where an argument is no good.
const EEXIST: i32 = 17;

pub const EINVAL: i32 = 22;

// How many names are tried for a new file: as many as C tries.
const TRIES: u32 = 238328;

// Opens the file for reading.
pub fn open_read(rt: &HostRuntime, path: &[u8]) -> io::Result<File> {
    File::open(rt, text(path)?)
}

// Opens the file for reading and writing, and leaves its bytes as they are.
pub fn open_update(rt: &HostRuntime, path: &[u8]) -> io::Result<File> {
    OpenOptions::new()
        .read(true)
        .write(true)
        .open(rt, text(path)?)
}

// Makes a file, which its maker alone may read and write, and opens it. It fails where the name is taken.
fn create(rt: &HostRuntime, path: &[u8]) -> io::Result<File> {
    OpenOptions::new()
        .read(true)
        .write(true)
        .create_new(true)
        .mode(0o600)
        .open(rt, text(path)?)
}

// The same where the name is free, and nothing where it is taken.
fn create_free(rt: &HostRuntime, path: &[u8]) -> io::Result<Option<File>> {
    match create(rt, path) {
        Ok(file) => Ok(Some(file)),
        Err(e) if e.kind() == io::ErrorKind::AlreadyExists => Ok(None),
        Err(e) => Err(e),
    }
}

// Makes a file by a name that ends in XXXXXX, in place of which come random letters and digits, so that name is the new file's.
pub fn create_temp(rt: &HostRuntime, name: &mut [u8]) -> io::Result<File> {
    if name.len() < 6 {
        return Err(io::Error::from_raw_os_error(EINVAL));
    }
    for _ in 0..TRIES {
        let mut random = [0u8; 6];
        rt.fill_bytes(&mut random)?;
        complete(name, &random);
        if let Some(file) = create_free(rt, name)? {
            return Ok(file);
        }
    }
    Err(io::Error::from_raw_os_error(EEXIST))
}

// Gives a file another name, which another file may have had.
pub fn rename(rt: &HostRuntime, from: &[u8], to: &[u8]) -> io::Result<()> {
    fs::rename(rt, text(from)?, text(to)?)
}

// Removes a name.
pub fn unlink(rt: &HostRuntime, path: &[u8]) -> io::Result<()> {
    fs::remove_file(rt, text(path)?)
}

// Waits until the device holds the directory, or the file, of this name.
pub fn sync(rt: &HostRuntime, path: &[u8]) -> io::Result<()> {
    open_read(rt, path)?.sync_all()
}
