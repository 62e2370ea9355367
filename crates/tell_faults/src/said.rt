//! What a call prints, and its exit status.
use json::Writer;
use std::alloc::{AllocError, Global};

/// The output, and the status.
#[derive(Drop)]
pub struct Said {
    pub status: u8,
    pub text: Vec<u8>,
}

/// The text of a JSON writer, with a line end.
pub fn json_text(out: Writer<Global>) -> Result<Vec<u8>, AllocError> {
    let mut text = out.into_inner();
    text.push(b'\n')?;
    Ok(text)
}
