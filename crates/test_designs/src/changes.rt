//! Changes the designs of `examples/`: other definitions for some names.
use crate::files::Example;
use std::alloc::{AllocError, Global};

/// Whether definitions define the name that a line defines. The kinds `word` and `bool` have the same number of
/// letters.
fn is_defined(line: &[u8], definitions: &[u8]) -> bool {
    let head = match line
        .get(5..)
        .unwrap_or(line)
        .split(|byte| *byte == b'=')
        .next()
    {
        Some(head) => head,
        None => line,
    };
    definitions
        .split(|byte| *byte == b'\n')
        .any(|other| other.get(5..).unwrap_or(other).starts_with(head))
}

impl Example {
    /// Its text with other definitions, each on a line of its own, in place of those of the same names.
    pub fn with(self, alloc: Global, definitions: &[u8]) -> Result<Vec<u8>, AllocError> {
        let mut text = Vec::from_slice(alloc, definitions)?;
        text.push(b'\n')?;
        let mut kept = true;
        for line in self.text().split(|byte| *byte == b'\n') {
            if line.starts_with(b"word ") || line.starts_with(b"bool ") {
                kept = !is_defined(line, definitions);
            }
            if kept {
                text.extend_from_slice(line)?;
                text.push(b'\n')?;
            }
        }
        Ok(text)
    }

    /// Definitions, each on a line of its own, and 0 for each other name that the design defines.
    pub fn zeros(self, alloc: Global, definitions: &[u8]) -> Result<Vec<u8>, AllocError> {
        let mut text = Vec::from_slice(alloc, definitions)?;
        text.push(b'\n')?;
        for line in self.text().split(|byte| *byte == b'\n') {
            let is_head = line.starts_with(b"word ") || line.starts_with(b"bool ");
            if is_head && !is_defined(line, definitions) {
                if let Some(head) = line.split(|byte| *byte == b'=').next() {
                    text.extend_from_slice(head)?;
                    text.extend_from_slice(b"= 0;\n")?;
                }
            }
        }
        Ok(text)
    }
}
