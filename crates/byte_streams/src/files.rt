//! Files of the host.

use crate::failures::NotOpened;
use std::fs::File;

/// Opens a file of the host for reading; a relative name starts at the folder that the program was
/// started in. `NotOpened` if the host does not open it, or if it is a folder.
pub fn open_file(rt: &HostRuntime, name: &str) -> Result<File, NotOpened> {
    let Ok(file) = File::open(rt, name) else {
        return Err(NotOpened::seen());
    };
    match file.metadata() {
        Ok(metadata) if !metadata.is_dir() => Ok(file),
        _ => Err(NotOpened::seen()),
    }
}
