//! The output for an accepted file, in sentences.
use hcl_types::SequentialDatapath;
use std::alloc::AllocError;

/// Writes the output for an accepted file.
pub fn put_seq_yes(out: &mut String, which: SequentialDatapath) -> Result<(), AllocError> {
    out.push_str("yes: all 16 obligations hold.\n\n")?;
    out.push_str(match which {
        SequentialDatapath::Seq => "This SEQ does what the instructions mean, for every program.\n",
        SequentialDatapath::SeqPlus =>
            "This SEQ+ does what the instructions mean, for every program.\n",
    })
}
