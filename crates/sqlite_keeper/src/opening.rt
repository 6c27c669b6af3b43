//! The file of a keeper as it is opened: who may read it, and whether its table is ours.

use crate::statements::{find_table, make_table};
use sqlite::{Connection, Error, ErrorCode, FileFrom, FileStore, Start};
use std::fs::OpenOptions;
use std::io::ErrorKind;
use std::os::unix::fs::OpenOptionsExt;

/// The mode of a new file: it holds stored passwords, so nobody but its owner reads it.
const OWNER_ALONE: u32 = 0o600;

/// What is answered where there can be no file.
const CANNOT_OPEN: Error = Error::SqliteFailure(ErrorCode::CannotOpen);

/// Opens the file at the place, and makes what is missing of it: the file, and the table. Where the file is open
/// elsewhere, isn't a database, or has another table of that name, it is left as it was.
pub(crate) fn open<S: Start + Drop>(
    rt: &HostRuntime,
    place: &str,
    start: S,
) -> Result<Connection<FileStore<FileFrom<S>>>, Error> {
    make_file(rt, place)?;
    let mut file = match Connection::open_from(rt, place, false, start) {
        Ok(file) => file,
        Err((error, _)) => return Err(error),
    };
    if !find_table(&mut file)? {
        make_table(&mut file)?;
    }
    Ok(file)
}

/// Makes an empty file where there is none, before anything is written to it. Places that name no file of the disk are
/// refused.
fn make_file(rt: &HostRuntime, place: &str) -> Result<(), Error> {
    if place.is_empty() || place == ":memory:" || place.starts_with("file:") {
        return Err(CANNOT_OPEN);
    }
    match OpenOptions::new()
        .write(true)
        .create_new(true)
        .mode(OWNER_ALONE)
        .open(rt, place)
    {
        Ok(_) => Ok(()),
        Err(error) if error.kind() == ErrorKind::AlreadyExists => Ok(()),
        Err(error) if error.kind() == ErrorKind::OutOfMemory => {
            Err(Error::SqliteFailure(ErrorCode::OutOfMemory))
        }
        Err(_) => Err(CANNOT_OPEN),
    }
}
