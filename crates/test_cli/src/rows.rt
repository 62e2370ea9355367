//! The lines of the input, and the answer to each.
use crate::calls::{Done, Trouble, call};
use crate::faults::{drips, lines, read, writes};
use crate::files::{Entry, design_of};
use cli_plans::pipe_design;
use control_check::accept_pipe;
use std::alloc::{AllocError, Global};
use y86_base::Variant;

/// The most reads that fail in turn.
const MOST_READS: u64 = 8;

/// The files of the calls.
#[derive(Drop)]
pub struct Rows {
    alloc: Global,
    entries: Vec<Entry>,
}

/// The words of a call; `''` is an empty word.
fn words_of(alloc: Global, text: &str) -> Result<Vec<String>, AllocError> {
    let mut words = Vec::new(alloc);
    for word in text.split_whitespace() {
        let word = if word == "''" { "" } else { word };
        words.push(String::from_str(alloc, word)?)?;
    }
    Ok(words)
}

/// The number before the words of a call, and the words.
fn counted(text: &str) -> (u64, &str) {
    match text.split_once(' ') {
        None => (0, text),
        Some((number, words)) => (number.parse::<u32>().unwrap_or(0) as u64, words),
    }
}

/// A transcript of a call: standard output, where `\` and a line feed follow a text without a line feed at its end; the
/// line on standard error after a `!`; and the status after a `=`.
fn transcript(alloc: Global, done: &Done) -> Result<String, AllocError> {
    let mut text = String::from_utf8_lossy(alloc, done.out.as_slice())?;
    if !text.is_empty() && !text.ends_with('\n') {
        text.push_str("\\\n")?;
    }
    if !done.err.is_empty() {
        text.push_str("! ")?;
        text.push_str(String::from_utf8_lossy(alloc, done.err.as_slice())?.as_str())?;
    }
    let status = done.status;
    text.push_str(format!(in alloc; "= {status}\n")?.as_str())?;
    Ok(text)
}

/// The answer of `accept_pipe` to a design: its setting `lf`, or that it isn't accepted.
fn accepted(alloc: Global, text: &[u8]) -> &'static str {
    let Ok(bound) = pipe_design(alloc, "h.hcl", text) else {
        return "no design\n";
    };
    match accept_pipe(alloc, Variant::Base, &bound.ordered) {
        Ok(Some(accepted)) => {
            if accepted.settings().lf {
                "accepted, lf=1\n"
            } else {
                "accepted, lf=0\n"
            }
        }
        Ok(None) => "not accepted\n",
        Err(_) => "not decided\n",
    }
}

impl Rows {
    /// No files.
    pub fn new(alloc: Global) -> Rows {
        Rows {
            alloc,
            entries: Vec::new(alloc),
        }
    }

    /// The answer to a line of the input. An empty line forgets all files.
    pub fn answer(&mut self, line: &str) -> Result<String, AllocError> {
        let alloc = self.alloc;
        if line.is_empty() {
            self.entries.clear();
            return String::from_str(alloc, "\n");
        }
        if line.starts_with("# ") {
            return format!(in alloc; "{line}\n");
        }
        if let Some(text) = line.strip_prefix("|") {
            self.append(text)?;
            self.append("\\0a")?;
            return Ok(String::new(alloc));
        }
        if let Some(text) = line.strip_prefix("+") {
            self.append(text)?;
            return Ok(String::new(alloc));
        }
        match line.split_once(' ') {
            None => format!(in alloc; "{line}\n"),
            Some((name, rest)) => self.asked(name, rest),
        }
    }

    /// Appends to the last file.
    fn append(&mut self, text: &str) -> Result<(), AllocError> {
        match self.entries.last_mut() {
            Some(entry) => entry.append(text),
            None => Ok(()),
        }
    }

    /// The answer to a line with a name and a rest.
    fn asked(&mut self, name: &str, rest: &str) -> Result<String, AllocError> {
        let alloc = self.alloc;
        match name {
            "file" => {
                self.entries.push(Entry::new(alloc, rest, None)?)?;
                Ok(String::new(alloc))
            }
            "design" => {
                let (file, design) = rest.split_once(' ').unwrap_or((rest, "std"));
                self.entries
                    .push(Entry::new(alloc, file, design_of(design))?)?;
                Ok(String::new(alloc))
            }
            "fill" => {
                self.fill(rest)?;
                Ok(String::new(alloc))
            }
            _ => self.called(name, rest),
        }
    }

    /// Appends a byte to the last file, a number of times: the count comes before two hexadecimal digits.
    fn fill(&mut self, rest: &str) -> Result<(), AllocError> {
        let (count, byte) = counted(rest);
        let byte = u8::from_str_radix(byte, 16).unwrap_or(32);
        match self.entries.last_mut() {
            Some(entry) => entry.fill(byte, count),
            None => Ok(()),
        }
    }

    /// The answer to a call, after a line that repeats it.
    fn called(&self, name: &str, rest: &str) -> Result<String, AllocError> {
        let alloc = self.alloc;
        let mut text = format!(in alloc; "{name} {rest}\n")?;
        text.push_str(self.done(name, rest)?.as_str())?;
        Ok(text)
    }

    /// What a call did.
    fn done(&self, name: &str, rest: &str) -> Result<String, AllocError> {
        let alloc = self.alloc;
        let files = self.entries.as_slice();
        match name {
            "$" => {
                let words = words_of(alloc, rest)?;
                transcript(
                    alloc,
                    &call(alloc, files, words.as_slice(), Trouble::none())?,
                )
            }
            "writes" => {
                let (step, rest) = counted(rest);
                writes(alloc, files, words_of(alloc, rest)?.as_slice(), step)
            }
            "lines" => lines(alloc, files, words_of(alloc, rest)?.as_slice()),
            "reads" => self.reads(words_of(alloc, rest)?.as_slice()),
            "accepted" => self.accepted(rest),
            "drips" => {
                let (step, rest) = counted(rest);
                drips(alloc, files, words_of(alloc, rest)?.as_slice(), step)
            }
            "room" => {
                let (room, rest) = counted(rest);
                let trouble = Trouble {
                    room,
                    ..Trouble::none()
                };
                let words = words_of(alloc, rest)?;
                transcript(alloc, &call(alloc, files, words.as_slice(), trouble)?)
            }
            _ => String::from_str(alloc, "not known\n"),
        }
    }

    /// Transcripts of the calls in which a read fails, each in turn, up to the first without a failed read.
    fn reads(&self, words: &[String]) -> Result<String, AllocError> {
        let alloc = self.alloc;
        let mut text = String::new(alloc);
        for number in 0..MOST_READS {
            let done = read(alloc, self.entries.as_slice(), words, number)?;
            text.push_str(transcript(alloc, &done)?.as_str())?;
            if done.status != 3 {
                break;
            }
        }
        Ok(text)
    }

    /// The answer of `accept_pipe` to the file with this name.
    fn accepted(&self, name: &str) -> Result<String, AllocError> {
        let alloc = self.alloc;
        for entry in &self.entries {
            if entry.is_named(name) {
                let text = entry.bytes(alloc)?;
                return String::from_str(alloc, accepted(alloc, text.as_slice()));
            }
        }
        String::from_str(alloc, "no file\n")
    }
}
