//! The files of the calls: texts as the input writes them, and designs of `examples/` with other definitions.
use std::alloc::{AllocError, Global};
use test_designs::Example;
use wb_io::MemFiles;

/// A file: its name, and its text, or a design and the definitions that replace the design's own.
#[derive(Drop)]
pub struct Entry {
    name: String,
    design: Option<Example>,
    text: Vec<u8>,
}

/// The design of `examples/` with this name.
pub fn design_of(name: &str) -> Option<Example> {
    match name {
        "seq" => Some(Example::Seq),
        "sp" => Some(Example::Sp),
        "std" => Some(Example::Std),
        "nb" => Some(Example::Nb),
        "lf" => Some(Example::Lf),
        "nt" => Some(Example::Nt),
        "bt" => Some(Example::Bt),
        "fu" => Some(Example::Fu),
        _ => None,
    }
}

/// The value of a hexadecimal digit, 0 for any other byte.
fn digit(byte: u8) -> u8 {
    match byte {
        b'0'..=b'9' => byte - b'0',
        b'a'..=b'f' => byte - b'a' + 10,
        _ => 0,
    }
}

impl Entry {
    /// An empty file, or the design.
    pub fn new(alloc: Global, name: &str, design: Option<Example>) -> Result<Entry, AllocError> {
        Ok(Entry {
            name: String::from_str(alloc, name)?,
            design,
            text: Vec::new(alloc),
        })
    }

    /// Appends a text in which `\` and two hexadecimal digits stand for a byte.
    pub fn append(&mut self, text: &str) -> Result<(), AllocError> {
        let mut first = true;
        for part in text.as_bytes().split(|byte| *byte == b'\\') {
            if first {
                self.text.extend_from_slice(part)?;
                first = false;
                continue;
            }
            let high = match part.get(0) {
                Some(byte) => digit(*byte),
                None => 0,
            };
            let low = match part.get(1) {
                Some(byte) => digit(*byte),
                None => 0,
            };
            self.text.push(high.wrapping_mul(16).wrapping_add(low))?;
            self.text.extend_from_slice(part.get(2..).unwrap_or(b""))?;
        }
        Ok(())
    }

    /// Appends a byte `count` times.
    pub fn fill(&mut self, byte: u8, count: u64) -> Result<(), AllocError> {
        for _ in 0..count {
            self.text.push(byte)?;
        }
        Ok(())
    }

    /// The bytes of the file. Without definitions a design is its own text.
    pub fn bytes(&self, alloc: Global) -> Result<Vec<u8>, AllocError> {
        match self.design {
            None => Vec::from_slice(alloc, self.text.as_slice()),
            Some(design) => {
                if self.text.is_empty() {
                    Vec::from_slice(alloc, design.text())
                } else {
                    design.with(alloc, self.text.as_slice())
                }
            }
        }
    }

    /// Whether it has this name.
    pub fn is_named(&self, name: &str) -> bool {
        self.name.as_str() == name
    }
}

/// The files in memory. The reads with these numbers fail.
pub fn in_memory(alloc: Global, entries: &[Entry], fail: &[u64]) -> Result<MemFiles, AllocError> {
    let mut files = MemFiles::new(alloc, Vec::from_slice(alloc, fail)?);
    for entry in entries {
        let bytes = entry.bytes(alloc)?;
        match files.add(entry.name.as_str(), bytes.as_slice()) {
            Ok(()) => {}
            Err(_) => return Err(AllocError),
        }
    }
    Ok(files)
}
