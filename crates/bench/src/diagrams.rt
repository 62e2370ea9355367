//! Measures the diagrams of the sample formulas: how many paths lead to their truth, and how many nodes were made.
use std::alloc::{AllocError, Global};
use test_formulas::{Formula, Sample, built, paths};

/// The results for a formula: how many paths lead to its truth, whether it is valid, and how many nodes were made. The
/// number of the diagram that was built last shows how many nodes there are.
#[derive(Drop)]
struct Outcome {
    paths: u64,
    valid: bool,
    nodes: u64,
}

/// The formula that a text names.
fn formula_of(alloc: Global, text: &str) -> Option<Formula> {
    let (name, size) = text.split_once(' ')?;
    let size = size.parse::<u32>().ok()?;
    let sample = match name {
        "adders" => Sample::Adders,
        "queens" => Sample::Queens,
        "words" => Sample::Words,
        _ => return None,
    };
    sample.formula(alloc, size)
}

/// The results for the formula that a text names.
fn found(alloc: Global, text: &str) -> Option<Outcome> {
    let formula = formula_of(alloc, text)?;
    let (store, root, other) = built(alloc, &formula)?;
    Some(Outcome {
        paths: paths(&store, root, 64),
        valid: store.valid(root),
        nodes: other.id.saturating_sub(2),
    })
}

/// The answer to a line, and nothing if it names no formula that can be built.
pub fn answer(alloc: Global, line: &str) -> Result<Option<String>, AllocError> {
    if let Some(text) = line.strip_prefix("nodes ") {
        return match found(alloc, text) {
            Some(o) => Ok(Some(format!(in alloc; "{} nodes", o.nodes)?)),
            None => Ok(None),
        };
    }
    match found(alloc, line) {
        Some(o) => Ok(Some(format!(in alloc; "valid {}, {} paths", o.valid, o.paths)?)),
        None => Ok(None),
    }
}
