//! Maps and buffered writers.

ghost use Rattle.std.specs.Prelude.{◌≡◌, [], None, OnOk, OnErr, IfOk, IfErr};
ghost use Rattle.std.specs.Io.Buffered.{writer_inner, writer_buffer};
ghost use Rattle.indexmap.specs.IndexMap.{get, insert_entry, IsUnchanged};

use crate::no_memory::{NoMemory, NotStored};
use indexmap::IndexMap;
use std::alloc::Allocator;
use std::hash::{BuildHasher, Hash};
use std::io::{BufWriter, Write};

/// Inserts a value into a map that keeps insertion order, and returns the old value of the key. If
/// out of memory, the error holds key and value; the key was absent, and the map is unchanged.
pub fn put<K: Eq + Hash + Drop, V, S: BuildHasher, A: Allocator>(
    map: &mut IndexMap<K, V, S, A>,
    key: K,
    value: V,
) -> Result<Option<V>, NotStored<(K, V)>>
    ensures old { IfOk result (λ old. old ≡ get K.eq map.old key) }
    ensures entries { OnOk result (map.new.entries ≡ insert_entry K.eq map.old.entries key value) }
    ensures err { OnErr result (IsUnchanged map.old map.new) }
    ensures absent { OnErr result (get K.eq map.old key ≡ None) }
    ensures value_returned { IfErr result (λ failed. failed.value ≡ (key, value)) }
{
    match map.insert(key, value) {
        Ok(old) => Ok(old),
        Err(failed) => Err(NotStored {
            value: failed.value,
            cause: NoMemory::seen(),
        }),
    }
}

/// A buffered writer with an empty buffer. Writes nothing.
pub fn buffered<W: Write + Drop, A: Allocator>(
    alloc: A,
    inner: W,
) -> Result<BufWriter<W, A>, NoMemory>
    ensures inner { IfOk result (λ writer. writer_inner writer ≡ inner) }
    ensures empty { IfOk result (λ writer. writer_buffer writer ≡ []) }
{
    match BufWriter::new(alloc, inner) {
        Ok(writer) => Ok(writer),
        Err(_) => Err(NoMemory::seen()),
    }
}
