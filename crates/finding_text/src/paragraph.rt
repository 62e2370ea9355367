//! Paragraphs: lines of at most 96 columns.
use std::alloc::{AllocError, Global};

/// The most columns of a line.
const WIDTH: usize = 96;

/// Writes a text in one line, without the marks around names of signals.
fn put_plain(out: &mut String, text: &str) -> Result<(), AllocError> {
    for line in text.split('\n') {
        for part in line.split('`') {
            out.push_str(part)?;
        }
        out.push_str(" ")?;
    }
    Ok(())
}

/// The columns of a text's last line.
fn last_column(text: &str) -> usize {
    match text.rsplit_once('\n') {
        Some((_, line)) => line.len(),
        None => text.len(),
    }
}

/// Writes the words of a text in lines: `first` continues the line that `out` ends with, and `rest` begins each line
/// after it. A line end follows.
pub fn put_lines(out: &mut String, first: &str, rest: &str, text: &str) -> Result<(), AllocError> {
    out.push_str(first)?;
    let mut column = last_column(out.as_str());
    let mut is_first = true;
    for word in text.split(' ') {
        if word.is_empty() {
            continue;
        }
        if is_first {
            is_first = false;
        } else if column.saturating_add(word.len()) >= WIDTH {
            out.push_str("\n")?;
            out.push_str(rest)?;
            column = rest.len();
        } else {
            out.push_str(" ")?;
            column = column.saturating_add(1);
        }
        out.push_str(word)?;
        column = column.saturating_add(word.len());
    }
    out.push_str("\n")
}

/// Writes the words of a text in lines, without the marks around names of signals.
pub fn put_paragraph(
    alloc: Global,
    out: &mut String,
    first: &str,
    rest: &str,
    text: &str,
) -> Result<(), AllocError> {
    let mut plain = String::new(alloc);
    put_plain(&mut plain, text)?;
    put_lines(out, first, rest, plain.as_str())
}
