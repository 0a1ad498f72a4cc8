//! The failures of readers, writers and files.

/// A read failed. Only this crate makes one, and only after a reader returned an error, so that no
/// fault that carries one is invented.
#[derive(Debug, Drop, PartialEq, Eq)]
pub struct ReadFailed {
    seal: (),
}

impl ReadFailed {
    /// Called only after a reader returned an error.
    pub(crate) fn seen() -> Self {
        ReadFailed { seal: () }
    }
}

/// A write or a flush failed. Only this crate makes one, and only after a writer returned an error,
/// took none of the bytes or not all in 2^64 - 1 calls, or after a value could not be shown.
#[derive(Debug, Drop, PartialEq, Eq)]
pub struct WriteFailed {
    seal: (),
}

impl WriteFailed {
    /// Called only after a writer did not take what it was given, or did not flush.
    pub(crate) fn seen() -> Self {
        WriteFailed { seal: () }
    }
}

/// A file was not opened. Only this crate makes one, and only after the host returned an error, or
/// the file turned out to be a folder.
#[derive(Debug, Drop, PartialEq, Eq)]
pub struct NotOpened {
    seal: (),
}

impl NotOpened {
    /// Called only after the host did not open a file.
    pub(crate) fn seen() -> Self {
        NotOpened { seal: () }
    }
}
