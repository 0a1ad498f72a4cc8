//! The rows of a file, one after another. Of the file no more is held than a row and a chunk.

use crate::faults::SourceFault;
use byte_streams::read_some;
use memory::{GrowVec, try_extend};
use std::alloc::Allocator;
use std::io::Read;

/// How many bytes are read at once.
const CHUNK: usize = 4_096;

/// The most bytes of a row.
pub const ROW_LIMIT: usize = 4_194_304;

/// The form of a file.
#[derive(Clone, Copy, Debug, PartialEq, Eq)]
pub enum SourceForm {
    /// GeoJSON: features one after another, or in a collection.
    Json,
    /// Comma-separated values: a row of names, and rows of values.
    Csv,
}

/// Where the next byte of a GeoJSON file stands.
#[derive(Clone, Copy, Debug, PartialEq, Eq)]
enum Place {
    /// Between texts.
    Between,
    /// Among the features of a collection.
    Items,
    /// Behind the features of a collection, within it.
    Tail,
}

/// How deep a byte of a JSON text stands.
#[derive(Clone, Copy, Debug)]
struct Nesting {
    depth: u64,
    quoted: bool,
    escaped: bool,
}

impl Nesting {
    /// Behind an opening bracket.
    fn opened() -> Nesting {
        Nesting {
            depth: 1,
            quoted: false,
            escaped: false,
        }
    }

    /// Behind one more byte.
    fn after(self, byte: u8) -> Nesting {
        if self.quoted {
            return Nesting {
                depth: self.depth,
                quoted: self.escaped || byte != b'"',
                escaped: !self.escaped && byte == b'\\',
            };
        }
        let depth = match byte {
            b'{' | b'[' => self.depth.saturating_add(1),
            b'}' | b']' => self.depth.saturating_sub(1),
            _ => self.depth,
        };
        Nesting {
            depth,
            quoted: byte == b'"',
            escaped: false,
        }
    }
}

/// Whether a byte is JSON's white space.
fn is_space(byte: u8) -> bool {
    matches!(byte, b' ' | b'\t' | b'\r' | b'\n')
}

/// A text without the white space at its end.
fn without_end_space(text: &[u8]) -> &[u8] {
    let spaces = text
        .iter()
        .rev()
        .take_while(|byte| is_space(**byte))
        .count();
    text.split_at(text.len().saturating_sub(spaces)).0
}

/// Whether an object's text ends with the key of a collection's features.
fn ends_with_features(text: &[u8]) -> bool {
    let Some(key) = without_end_space(text).strip_suffix(b":") else {
        return false;
    };
    match without_end_space(key).strip_suffix(b"\"features\"") {
        Some(before) => !before.ends_with(b"\\"),
        None => false,
    }
}

/// The rows of a file: what was read ahead, and where it stands.
#[derive(Drop)]
pub struct Source<A: Allocator> {
    bytes: Vec<u8, A>,
    used: usize,
    place: Place,
    tail: Nesting,
}

impl<A: Allocator + Copy> Source<A> {
    /// Nothing is read yet.
    pub fn new(alloc: A) -> Self {
        Source {
            bytes: Vec::new(alloc),
            used: 0,
            place: Place::Between,
            tail: Nesting::opened(),
        }
    }

    /// Reads once more, if nothing is held.
    fn fill<R: Read>(&mut self, reader: &mut R) -> Result<(), SourceFault> {
        if self.used < self.bytes.len() {
            return Ok(());
        }
        self.bytes.clear();
        self.used = 0;
        let mut chunk = [0; CHUNK];
        let count = read_some(reader, &mut chunk)?;
        try_extend(&mut self.bytes, &chunk[..count.min(CHUNK)])?;
        Ok(())
    }

    /// The next byte, which stays; `None` at the end.
    fn peek<R: Read>(&mut self, reader: &mut R) -> Result<Option<u8>, SourceFault> {
        self.fill(reader)?;
        Ok(self.bytes.get(self.used).copied())
    }

    /// The next byte; `None` at the end.
    fn next_byte<R: Read>(&mut self, reader: &mut R) -> Result<Option<u8>, SourceFault> {
        let byte = self.peek(reader)?;
        if byte.is_some() {
            self.used = self.used.wrapping_add(1);
        }
        Ok(byte)
    }

    /// The form of the file, by its first byte that is neither white space, nor of a byte order
    /// mark, nor a record separator.
    /// `NoForm` for an empty file.
    pub fn form<R: Read>(&mut self, reader: &mut R) -> Result<SourceForm, SourceFault> {
        for _ in 0..u64::MAX {
            match self.peek(reader)? {
                Some(b'{') => return Ok(SourceForm::Json),
                Some(byte) => {
                    let is_mark = matches!(byte, 0xef | 0xbb | 0xbf | 0x1e);
                    if !is_mark && !is_space(byte) {
                        return Ok(SourceForm::Csv);
                    }
                    self.next_byte(reader)?;
                }
                None => return Err(SourceFault::NoForm),
            }
        }
        Err(SourceFault::NoForm)
    }

    /// Reads the next row of a file of this form into `text`; false at the file's end.
    pub fn read_row<R: Read>(
        &mut self,
        form: SourceForm,
        reader: &mut R,
        text: &mut Vec<u8, A>,
    ) -> Result<bool, SourceFault> {
        text.clear();
        match form {
            SourceForm::Json => self.read_json(reader, text),
            SourceForm::Csv => self.read_record(reader, text),
        }
    }

    /// Reads the next feature, a text of its own or one of a collection.
    fn read_json<R: Read>(
        &mut self,
        reader: &mut R,
        text: &mut Vec<u8, A>,
    ) -> Result<bool, SourceFault> {
        for _ in 0..u64::MAX {
            if !self.seek_object(reader)? {
                return Ok(false);
            }
            if self.take_object(reader, text)? {
                return Ok(true);
            }
        }
        Err(SourceFault::Cut)
    }

    /// Goes on behind the brace that opens the next object; false at the file's end.
    fn seek_object<R: Read>(&mut self, reader: &mut R) -> Result<bool, SourceFault> {
        for _ in 0..u64::MAX {
            let Some(byte) = self.next_byte(reader)? else {
                return if self.place == Place::Between {
                    Ok(false)
                } else {
                    Err(SourceFault::Cut)
                };
            };
            match (self.place, byte) {
                (Place::Tail, byte) => self.pass_tail(byte),
                (_, b'{') => return Ok(true),
                (Place::Items, b']') => {
                    self.place = Place::Tail;
                    self.tail = Nesting::opened();
                }
                // A record separator stands before each text of a sequence (RFC 8142).
                (Place::Items, b',') | (Place::Between, 0x1e) => {}
                (_, byte) => {
                    if !is_space(byte) {
                        return Err(SourceFault::NoForm);
                    }
                }
            }
        }
        Err(SourceFault::Cut)
    }

    /// Goes on behind a byte at the end of a collection.
    fn pass_tail(&mut self, byte: u8) {
        self.tail = self.tail.after(byte);
        if self.tail.depth == 0 {
            self.place = Place::Between;
        }
    }

    /// Takes an object behind its brace; false where it is a collection, whose features come next.
    fn take_object<R: Read>(
        &mut self,
        reader: &mut R,
        text: &mut Vec<u8, A>,
    ) -> Result<bool, SourceFault> {
        text.clear();
        text.try_push(b'{')?;
        let mut nesting = Nesting::opened();
        for _ in 0..u64::MAX {
            let Some(byte) = self.next_byte(reader)? else {
                return Err(SourceFault::Cut);
            };
            if byte == b'[' && self.opens_features(nesting, text.as_slice()) {
                self.place = Place::Items;
                return Ok(false);
            }
            if text.len() >= ROW_LIMIT {
                return Err(SourceFault::TooLong);
            }
            text.try_push(byte)?;
            nesting = nesting.after(byte);
            if nesting.depth == 0 {
                return Ok(true);
            }
        }
        Err(SourceFault::Cut)
    }

    /// Whether a bracket behind a text opens the features of a collection.
    fn opens_features(&self, nesting: Nesting, text: &[u8]) -> bool {
        self.place == Place::Between
            && nesting.depth == 1
            && !nesting.quoted
            && ends_with_features(text)
    }

    /// Reads the next record, without its line end. Empty lines are passed over.
    fn read_record<R: Read>(
        &mut self,
        reader: &mut R,
        text: &mut Vec<u8, A>,
    ) -> Result<bool, SourceFault> {
        let mut quoted = false;
        for _ in 0..u64::MAX {
            let Some(byte) = self.next_byte(reader)? else {
                return if quoted {
                    Err(SourceFault::Cut)
                } else {
                    Ok(!without_end_space(text.as_slice()).is_empty())
                };
            };
            if byte == b'\n' && !quoted {
                if !without_end_space(text.as_slice()).is_empty() {
                    return Ok(true);
                }
                text.clear();
            } else {
                if text.len() >= ROW_LIMIT {
                    return Err(SourceFault::TooLong);
                }
                quoted = quoted != (byte == b'"');
                text.try_push(byte)?;
            }
        }
        Err(SourceFault::Cut)
    }
    /// Reads the next whole line into `line`, without its line feed; false where there is none.
    pub fn read_line<R: Read>(
        &mut self,
        reader: &mut R,
        line: &mut Vec<u8, A>,
    ) -> Result<bool, SourceFault> {
        line.clear();
        for _ in 0..u64::MAX {
            match self.next_byte(reader)? {
                Some(b'\n') => return Ok(true),
                Some(byte) => {
                    if line.len() >= ROW_LIMIT {
                        return Err(SourceFault::TooLong);
                    }
                    line.try_push(byte)?;
                }
                None => return Ok(false),
            }
        }
        Err(SourceFault::Cut)
    }
}
