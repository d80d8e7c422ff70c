use crate::file_disk::offset;
use std::fs::{File, Files};
use std::io;
use std::os::fd::AsRawFd;
use std::os::unix::fs::FileExt;
use std::path::Path;

/// The file under a descriptor above 2, so that what is meant for a standard stream that was closed never lands in it, and with the
/// lock that nobody else then gets.
pub(crate) fn take_over(file: File) -> io::Result<File> {
    let file = if file.as_raw_fd() > 2 {
        file
    } else {
        file.try_clone()?
    };
    file.try_lock()?;
    Ok(file)
}

/// Writes as many zero blocks. A system may give a file its length and find room for its blocks only when they are written.
pub(crate) fn write_zeros(file: &File, blocks: u32) -> io::Result<()> {
    let zeros = [0; 4096];
    for at in 0..blocks {
        file.write_all_at(&zeros, offset(at))?;
    }
    Ok(())
}

/// The folder in which the file at a path is.
pub(crate) fn open_folder<R: Files<File = File>>(rt: &R, path: &str) -> io::Result<File> {
    match Path::new(path).parent() {
        Some(folder) if !folder.as_os_str().is_empty() => File::open(rt, folder),
        _ => File::open(rt, "."),
    }
}
