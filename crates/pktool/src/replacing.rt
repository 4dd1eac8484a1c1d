//! Files that are created or replaced as a whole.
use crate::naming::{partial_name, real_name};
use pkopt::Form;
use std::alloc::Global;
use std::fs::{File, Metadata, OpenFile, OpenOptions, Permissions};
use std::io::ErrorKind;
use std::os::unix::fs::{MetadataExt, OpenOptionsExt, PermissionsExt, fchown};
use std::path::Path;
use std::rt::Files;
use std::{fs, io};

/// The mode of an unfinished file that will replace another.
const OWNER_ONLY: u32 = 0o600;

/// The mode of a file that replaces none, before the umask.
const ANYONE: u32 = 0o666;

/// The permission bits of a mode.
const PERMISSIONS: u32 = 0o777;

/// The permission bits of the owner and of others.
const NOT_GROUP: u32 = 0o707;

/// How many names are tried for the unfinished file.
const MOST_NAMES: u32 = 100;

/// Creates or replaces the file at a path as a whole, with a form made from an input.
///
/// A regular file, also one behind a symbolic link, is replaced atomically: whenever the process
/// ends, the name refers to the old file or to the complete new one. The new file gets the old
/// one's permissions, and its owner and group if the process may set them; until it is complete,
/// only its owner can read it. Access control lists and extended attributes are not kept, and other
/// hard links keep the old content. Anything else, such as a pipe or a device, is written in place,
/// but never if it is the input.
pub fn put_form<R: Files<File = File>>(
    rt: &R,
    alloc: Global,
    path: &str,
    input: &File,
    form: &Form<'_>,
) -> io::Result<()> {
    // Opened without truncation: this shows what is there, and whether it may be written.
    match OpenOptions::new().write(true).open(rt, path) {
        Ok(old) => {
            if old.metadata()?.is_file() {
                replace(rt, alloc, path, &old, form)
            } else {
                write_in_place(old, input, form)
            }
        }
        Err(error) => match error.kind() {
            ErrorKind::NotFound => create(rt, alloc, path, form),
            _ => Err(error),
        },
    }
}

/// Writes what is not a regular file, unless it is the input.
fn write_in_place(mut file: File, input: &File, form: &Form<'_>) -> io::Result<()> {
    if is_same(&file.metadata()?, &input.metadata()?) {
        return Err(io::Error::from(ErrorKind::InvalidInput));
    }
    form.write_to(&mut file)?;
    sync(&file)
}

fn is_same(one: &Metadata, other: &Metadata) -> bool {
    one.dev() == other.dev() && one.ino() == other.ino()
}

/// Creates a file with this form where there was none.
fn create<R: Files<File = File>>(
    rt: &R,
    alloc: Global,
    path: &str,
    form: &Form<'_>,
) -> io::Result<()> {
    let path = real_name(rt, alloc, path)?;
    let (file, partial) = create_beside(rt, alloc, path.as_str(), ANYONE)?;
    let filled = fill(file, None, form);
    take_name(rt, filled, partial.as_str(), path.as_str())
}

/// Replaces a regular file with one of this form.
fn replace<R: Files<File = File>>(
    rt: &R,
    alloc: Global,
    path: &str,
    old: &File,
    form: &Form<'_>,
) -> io::Result<()> {
    let path = real_name(rt, alloc, path)?;
    // A link to an open file, as in /proc, may show a name that the file no longer has.
    if !fs::symlink_metadata(rt, path.as_str())?.is_file() {
        return Err(io::Error::from(ErrorKind::NotFound));
    }
    let (file, partial) = create_beside(rt, alloc, path.as_str(), OWNER_ONLY)?;
    let filled = fill(file, Some(old), form);
    take_name(rt, filled, partial.as_str(), path.as_str())
}

/// Creates an empty file next to this one, and gives its name. If a name is taken, by another
/// process or by an interrupted one, the next name is tried.
fn create_beside<R: Files<File = File>>(
    rt: &R,
    alloc: Global,
    path: &str,
    mode: u32,
) -> io::Result<(File, String)> {
    for number in 0..MOST_NAMES {
        let name = partial_name(alloc, path, number)?;
        let made = OpenOptions::new()
            .write(true)
            .create_new(true)
            .mode(mode)
            .open(rt, name.as_str());
        match made {
            Ok(file) => return Ok((file, name)),
            Err(error) => {
                if error.kind() != ErrorKind::AlreadyExists {
                    return Err(error);
                }
            }
        }
    }
    Err(io::Error::from(ErrorKind::AlreadyExists))
}

/// Writes a new file completely, then gives it the old one's owner and permissions.
fn fill(mut file: File, old: Option<&File>, form: &Form<'_>) -> io::Result<()> {
    form.write_to(&mut file)?;
    if let Some(old) = old {
        give_permissions(&file, &old.metadata()?)?;
    }
    file.sync_all()
}

/// Gives a file these permissions, and the owner and the group if that is allowed. If the group
/// cannot be set, the file's own group gets no right that others lack.
fn give_permissions(file: &File, found: &Metadata) -> io::Result<()> {
    let (owner, group) = (found.uid(), found.gid());
    if fchown(file, Some(owner), Some(group)).is_err() {
        let _ = fchown(file, None, Some(group));
    }
    let mode = found.mode() & PERMISSIONS;
    let mode = if file.metadata()?.gid() == group {
        mode
    } else {
        mode & (NOT_GROUP | (mode << 3))
    };
    file.set_permissions(Permissions::from_mode(mode))
}

/// Renames the new file if it is complete; otherwise removes it.
fn take_name<R: Files<File = File>>(
    rt: &R,
    filled: io::Result<()>,
    partial: &str,
    path: &str,
) -> io::Result<()> {
    let named = match filled {
        Ok(()) => fs::rename(rt, partial, path),
        Err(error) => Err(error),
    };
    match named {
        Ok(()) => sync_folder(rt, path),
        Err(error) => {
            let _ = fs::remove_file(rt, partial);
            Err(error)
        }
    }
}

/// Syncs a file's folder, so that its name survives a crash. A folder that cannot be opened is not
/// synced.
fn sync_folder<R: Files<File = File>>(rt: &R, path: &str) -> io::Result<()> {
    let folder = match Path::new(path).parent() {
        Some(folder) => folder.as_str(),
        None => "",
    };
    let folder = if folder.is_empty() { "." } else { folder };
    match fs::open(rt, folder) {
        Ok(folder) => sync(&folder),
        Err(_) => Ok(()),
    }
}

/// Syncs a file if the system can: pipes, terminals and some folders cannot be synced.
fn sync(file: &File) -> io::Result<()> {
    match file.sync_all() {
        Ok(()) => Ok(()),
        Err(error) => match error.kind() {
            ErrorKind::InvalidInput => Ok(()),
            _ => Err(error),
        },
    }
}
