//! The situation of a counterexample, a line for each stage.
use finding_text::{instruction, mnemonic, put_register, status};
use pipe_requirements::{
    DecodeLine, ExecuteLine, FetchLine, FlowNow, Lines, MemoryLine, StageFlowNow, WriteLine,
};
use std::alloc::AllocError;

/// What a pipeline register holds: a bubble, an instruction of the program, or one on the wrong path.
#[derive(Clone, Copy, PartialEq, Eq)]
pub enum Held {
    Bubble,
    Program,
    WrongPath,
}

/// What a pipeline register with this flow holds.
pub fn held_in(stage: &StageFlowNow) -> Held {
    if stage.good {
        Held::Program
    } else if stage.wrong {
        Held::WrongPath
    } else {
        Held::Bubble
    }
}

/// The name of what a pipeline register holds.
pub fn held_name(stage: &StageFlowNow) -> &'static str {
    match held_in(stage) {
        Held::Bubble => "bubble",
        Held::Program => "program",
        Held::WrongPath => "wrong path",
    }
}

/// Writes a status that isn't AOK.
fn put_status(out: &mut String, stat: u64) -> Result<(), AllocError> {
    if stat == 1 {
        return Ok(());
    }
    match status(stat) {
        Some(name) => write!(out, ", status {name}"),
        None => Ok(()),
    }
}

/// Writes a remark if it applies.
fn put_if(out: &mut String, applies: bool, remark: &str) -> Result<(), AllocError> {
    if applies {
        out.push_str(remark)
    } else {
        Ok(())
    }
}

/// Writes that an instruction is on the wrong path.
fn put_path(out: &mut String, held: Held) -> Result<(), AllocError> {
    put_if(out, held == Held::WrongPath, ", on the wrong path")
}

/// Whether an instruction has a condition: a conditional move or a jump.
fn has_condition(icode: u64, ifun: u64) -> bool {
    ifun != 0 && (icode == 2 || icode == 7)
}

/// Writes whether the condition of a move or a jump holds.
fn put_condition(out: &mut String, icode: u64, ifun: u64, cnd: u64) -> Result<(), AllocError> {
    if !has_condition(icode, ifun) {
        return Ok(());
    }
    out.push_str(if cnd != 0 {
        ", its condition holds"
    } else {
        ", its condition fails"
    })
}

/// Writes where a jump goes.
fn put_jump(out: &mut String, icode: u64, taken: u64, back: u64) -> Result<(), AllocError> {
    if icode != 7 {
        return Ok(());
    }
    out.push_str(if taken != 0 {
        ", will be taken"
    } else {
        ", won't be taken"
    })?;
    put_if(out, back != 0, ", goes backward")
}

fn put_fetch(out: &mut String, f: &FetchLine) -> Result<(), AllocError> {
    if f.error != 0 {
        return out.push_str("the fetch fails");
    }
    out.push_str(mnemonic(f.icode, f.ifun))?;
    put_jump(out, f.icode, f.taken, f.back)?;
    put_if(out, f.stops != 0, ", its address is bad")
}

fn put_decode(out: &mut String, d: &DecodeLine, held: Held) -> Result<(), AllocError> {
    if held == Held::Bubble {
        return out.push_str("bubble");
    }
    out.push_str(if d.stat == 3 {
        "a failed fetch"
    } else {
        mnemonic(d.icode, d.ifun)
    })?;
    put_register(out, "rA", d.r_a)?;
    put_register(out, "rB", d.r_b)?;
    put_jump(out, d.icode, d.taken, d.back)?;
    put_status(out, d.stat)?;
    put_if(out, d.stops != 0, ", its address is bad")?;
    put_path(out, held)
}

fn put_execute(out: &mut String, e: &ExecuteLine, held: Held) -> Result<(), AllocError> {
    if held == Held::Bubble {
        return out.push_str("bubble");
    }
    out.push_str(if e.stat == 3 {
        "a failed fetch"
    } else {
        mnemonic(e.icode, e.ifun)
    })?;
    put_register(out, "reads A", e.src_a)?;
    put_register(out, "reads B", e.src_b)?;
    put_register(out, "writes", e.dst_e)?;
    put_register(out, "loads", e.dst_m)?;
    put_condition(out, e.icode, e.ifun, e.cnd)?;
    put_if(out, e.icode == 7 && e.back != 0, ", goes backward")?;
    put_status(out, e.stat)?;
    put_if(out, e.stops != 0, ", its address is bad")?;
    put_path(out, held)
}

fn put_memory(out: &mut String, m: &MemoryLine, held: Held) -> Result<(), AllocError> {
    if held == Held::Bubble {
        return out.push_str("bubble");
    }
    out.push_str(mnemonic(m.icode, m.ifun))?;
    put_register(out, "writes", m.dst_e)?;
    put_register(out, "loads", m.dst_m)?;
    put_condition(out, m.icode, m.ifun, m.cnd)?;
    put_if(out, m.icode == 7 && m.back != 0, ", goes backward")?;
    put_status(out, m.stat)?;
    put_if(out, m.error != 0, ", its address is bad")?;
    put_path(out, held)
}

fn put_write(out: &mut String, w: &WriteLine, held: Held) -> Result<(), AllocError> {
    if held == Held::Bubble {
        return out.push_str("bubble");
    }
    out.push_str(instruction(w.icode))?;
    put_register(out, "writes", w.dst_e)?;
    put_register(out, "loads", w.dst_m)?;
    put_status(out, w.stat)?;
    put_path(out, held)
}

/// Writes what the five stages hold, a line each.
pub fn put_stages(out: &mut String, l: &Lines, y: &FlowNow) -> Result<(), AllocError> {
    out.push_str("    F  fetch       ")?;
    put_fetch(out, &l.f)?;
    out.push_str("\n    D  decode      ")?;
    put_decode(out, &l.d, held_in(&y.d))?;
    out.push_str("\n    E  execute     ")?;
    put_execute(out, &l.e, held_in(&y.e))?;
    out.push_str("\n    M  memory      ")?;
    put_memory(out, &l.m, held_in(&y.m))?;
    out.push_str("\n    W  write-back  ")?;
    put_write(out, &l.w, held_in(&y.w))?;
    out.push_str("\n")
}
