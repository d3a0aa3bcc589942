//! Plain files of the system, each opened by the one name that it has.
use std::fs::{self, File, OpenOptions};
use std::io;
use std::os::fd::AsRawFd;
use std::os::unix::fs::{MetadataExt, OpenOptionsExt, fchown};
use std::path::Path;
use std::rt::Files;

// The descriptor of standard error.
const LAST_STREAM: i32 = 2;

// Makes an empty file with these permissions, where nothing has this name. It follows no link, and opens nothing that
// is there.
pub(crate) fn make<R: Files<File = File>>(rt: &R, name: &str, mode: u32) -> io::Result<()> {
    let made = OpenOptions::new()
        .write(true)
        .create_new(true)
        .mode(mode)
        .open(rt, name);
    match made {
        Err(error) if error.kind() != io::ErrorKind::AlreadyExists => Err(error),
        _ => Ok(()),
    }
}

// Opens a file to read and write it. What is no plain file, or has a second name, is refused: a device or a pipe keeps
// nothing that can be read again, and a file that is reached by two names has no one place for what belongs to it.
pub(crate) fn open<R: Files<File = File>>(rt: &R, name: &str) -> io::Result<File> {
    // Before it is opened, since a device may act on that.
    let named = fs::symlink_metadata(rt, name)?;
    if !named.is_file() || named.nlink() != 1 {
        return Err(io::ErrorKind::InvalidInput.into());
    }
    let file = OpenOptions::new().read(true).write(true).open(rt, name)?;
    let opened = file.metadata()?;
    if (opened.dev(), opened.ino()) != (named.dev(), named.ino()) {
        return Err(io::ErrorKind::InvalidInput.into());
    }
    above_the_streams(file)
}

// A file never stands in for a standard stream that was closed, or what is printed would land in it.
fn above_the_streams(file: File) -> io::Result<File> {
    if file.as_raw_fd() <= LAST_STREAM {
        return file.try_clone();
    }
    Ok(file)
}

// Gives a file the group and the permissions of another one, and its owner where the system lets: only a superuser gives
// files away, and whoever shares the group reads and writes it all the same.
pub(crate) fn liken(file: &File, other: &File) -> io::Result<()> {
    let (is, wanted) = (file.metadata()?, other.metadata()?);
    if is.gid() != wanted.gid() {
        fchown(file, None, Some(wanted.gid()))?;
    }
    if is.uid() != wanted.uid() {
        match fchown(file, Some(wanted.uid()), None) {
            Err(error) if error.kind() != io::ErrorKind::PermissionDenied => return Err(error),
            _ => {}
        }
    }
    if is.permissions() != wanted.permissions() {
        file.set_permissions(wanted.permissions())?;
    }
    Ok(())
}

// Settles which files there are in the folder of this one.
pub(crate) fn sync_folder<R: Files<File = File>>(rt: &R, path: Path<'_>) -> io::Result<()> {
    match path.parent() {
        Some(folder) => File::open(rt, folder)?.sync_all(),
        None => Err(io::ErrorKind::InvalidInput.into()),
    }
}
