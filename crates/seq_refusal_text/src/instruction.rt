//! The counterexample of SEQ or SEQ+: the instruction, and for SEQ+ what is stored of the instruction before.
use finding_text::{instruction, mnemonic, put_register};
use seq_requirements::{LineNow, PreviousNow};
use std::alloc::AllocError;

/// Writes whether the condition holds, if there is one.
fn put_condition(out: &mut String, is_asked: bool, cnd: u64) -> Result<(), AllocError> {
    if !is_asked {
        return Ok(());
    }
    out.push_str(if cnd != 0 {
        ", its condition holds"
    } else {
        ", its condition fails"
    })
}

/// Writes the instruction that the cycle does.
fn put_line(out: &mut String, line: &LineNow) -> Result<(), AllocError> {
    if line.error != 0 {
        return out.push_str("the fetch fails, so it counts as a nop");
    }
    if line.icode == 15 {
        return out.push_str("an invalid one");
    }
    out.push_str(mnemonic(line.icode, line.ifun))?;
    put_register(out, "rA", line.r_a)?;
    put_register(out, "rB", line.r_b)?;
    let has_condition = line.ifun != 0 && (line.icode == 2 || line.icode == 7);
    put_condition(out, has_condition, line.cnd)?;
    if line.derror != 0 {
        out.push_str(", its access to memory fails")?;
    }
    Ok(())
}

/// Writes the instruction, and for SEQ+ the one before.
pub fn put_instructions(
    out: &mut String,
    previous: Option<PreviousNow>,
    line: &LineNow,
) -> Result<(), AllocError> {
    if let Some(before) = previous {
        out.push_str("    The instruction before: ")?;
        out.push_str(instruction(before.icode))?;
        put_condition(out, before.icode == 7, before.cnd)?;
        out.push_str("\n")?;
    }
    out.push_str("    The instruction: ")?;
    put_line(out, line)?;
    out.push_str("\n")
}
