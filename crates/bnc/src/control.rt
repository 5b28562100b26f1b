//! The FIFO beside a settings file, by which the program is controlled while it runs.

use std::fs::{File, OpenOptions};
use std::io;
use std::io::ErrorKind;
use std::os::unix::fs::{FileTypeExt, MetadataExt};
use std::rt::Files;

/// The bits of a file's mode that let others write it than its owner.
const WRITTEN_BY_OTHERS: u32 = 0o022;

/// Whether a file is a FIFO of the program's own user that nobody else can write, and that no other
/// program has locked; then it is locked.
fn is_ours(file: &File) -> bool {
    let Ok(found) = file.metadata() else {
        return false;
    };
    let is_private = found.file_type().is_fifo() && found.mode() & WRITTEN_BY_OTHERS == 0;
    is_private && found.uid() == keep::user_id() && file.try_lock().is_ok()
}

/// Says why there is no FIFO: nobody made it, and how that is done, or it can't be opened.
fn tell_missing(rt: &impl Eprint, path: &str, error: &io::Error) {
    let _ = match error.kind() {
        ErrorKind::NotFound => eprintln!(rt;
            "bnc: without {path} 'bnc control' reaches nobody: mkfifo -m 600 {path}, and start again"
        ),
        _ => eprintln!(rt; "bnc: warning: {path} is not used: {error}"),
    };
}

/// Opens the FIFO `FILE.control` beside the settings file FILE. It is opened for writing too, so
/// that it has no end while nobody else writes, and it is locked, so that `bnc control` finds that
/// somebody reads. `None` if there is none, or if it is no FIFO of the program's own user that nobody
/// else can write, or if another program has it locked; standard error then says so, and how a missing
/// one is made.
pub fn open_control<R: AllocGlobal + Files<File = File> + Eprint>(
    rt: &R,
    path: &str,
) -> Option<File> {
    let path = format!(in rt.alloc(); "{path}.control").ok()?;
    let opened = OpenOptions::new()
        .read(true)
        .write(true)
        .open(rt, path.as_str());
    let file = match opened {
        Ok(file) => file,
        Err(error) => {
            tell_missing(rt, path.as_str(), &error);
            return None;
        }
    };
    if is_ours(&file) {
        return Some(file);
    }
    let _ = eprintln!(rt;
        "bnc: warning: {path} is not used: no FIFO that we own and only we can write, or in use"
    );
    None
}
