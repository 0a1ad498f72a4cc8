//! Reading the file of a configuration.

ghost use Rattle.std.specs.Prelude.{◌≡◌, ◌≤◌, IfOk, IfErr, length};
ghost use Rattle.configuration.specs.ConfigFiles.{FileGives, IsUnread, IsWhole};

use crate::config_faults::ConfigFault;
use crate::configs::{Config, read_config};
use byte_streams::{NotOpened, ReadFailed, read_some};
use memory::{NoMemory, try_extend};
use std::alloc::{Allocator, Global};
use std::io::Read;

/// The greatest length of a configuration's file, in bytes.
pub const CONFIG_LIMIT: usize = 16_777_216;

/// How many bytes are read at once.
const CHUNK: usize = 4_096;

/// Why a file cannot be read.
#[derive(Debug, Drop, PartialEq, Eq)]
pub enum ReadFault {
    /// It was not opened, or it is a folder.
    NotOpened(NotOpened),
    /// A read failed.
    Failed(ReadFailed),
    /// It is a configuration's file and longer than 16,777,216 bytes.
    TooLong,
}

/// Why a file yields no configuration.
#[derive(Debug, Drop, PartialEq, Eq)]
pub enum FileFault {
    /// It cannot be read.
    CannotRead(ReadFault),
    /// Its text is not a configuration, or an allocation was refused.
    Config(ConfigFault),
}

impl From<ReadFailed> for FileFault {
    ghost use Rattle.std.specs.Prelude.{◌≡◌};
    ghost use Rattle.configuration.specs.declared.files.ReadFault.TheVariants.{Failed};
    ghost use Rattle.configuration.specs.declared.files.FileFault.TheVariants as reasons;

    ghost from_gives = { λ failed fault. fault ≡ reasons.CannotRead (Failed failed) };

    fn from(failed: ReadFailed) -> Self {
        FileFault::CannotRead(ReadFault::Failed(failed))
    }
}

impl From<NoMemory> for FileFault {
    ghost use Rattle.std.specs.Prelude.{◌≡◌};
    ghost use Rattle.configuration.specs.declared.config_faults.ConfigFault.TheVariants.{Memory};
    ghost use Rattle.configuration.specs.declared.files.FileFault.TheVariants as reasons;

    ghost from_gives = { λ no_memory fault. fault ≡ reasons.Config (Memory no_memory) };

    fn from(no_memory: NoMemory) -> Self {
        FileFault::Config(ConfigFault::Memory(no_memory))
    }
}

impl From<ConfigFault> for FileFault {
    ghost use Rattle.std.specs.Prelude.{◌≡◌};
    ghost use Rattle.configuration.specs.declared.files.FileFault.TheVariants as reasons;

    ghost from_gives = { λ unread fault. fault ≡ reasons.Config unread };

    fn from(unread: ConfigFault) -> Self {
        FileFault::Config(unread)
    }
}

/// All bytes of a file. Each read before the end returns at least one byte, so there is at most one
/// read more than there are bytes.
pub(crate) fn whole_file<A: Allocator, R: Read>(
    alloc: A,
    file: &mut R,
) -> Result<Vec<u8, A>, FileFault>
    ensures whole { IfOk result (λ bytes. IsWhole (R.remaining file.old) bytes.items) }
    ensures fits { IfOk result (λ bytes. length bytes.items ≤ CONFIG_LIMIT) }
    ensures unread { IfErr result (IsUnread (R.remaining file.old)) }
{
    let mut bytes = Vec::new(alloc);
    let mut chunk = [0; CHUNK];
    for _ in 0..=CONFIG_LIMIT {
        let count = read_some(file, &mut chunk)?;
        if count == 0 {
            return Ok(bytes);
        }
        if count > CONFIG_LIMIT - bytes.len() {
            return Err(FileFault::CannotRead(ReadFault::TooLong));
        }
        try_extend(&mut bytes, &chunk[..count])?;
    }
    Err(FileFault::CannotRead(ReadFault::TooLong))
}

/// Reads the configuration in a file. The whole file is held in memory meanwhile.
/// Faults: `CannotRead` if a read fails or the file is longer than 16,777,216 bytes; else those of
/// `read_config`.
pub fn read_config_file<A: Allocator + Copy, R: Read>(
    alloc: A,
    heap: Global,
    file: &mut R,
) -> Result<Config<A>, FileFault>
    ensures { FileGives result (R.remaining file.old) }
{
    let text = whole_file(alloc, file)?;
    Ok(read_config(alloc, heap, text.as_slice())?)
}
