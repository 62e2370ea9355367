//! Tests which contents D, E, M and W may have, and when the predicted PC is that of the next instruction, against
//! results worked out by hand.
ghost use Rattle.std.specs.Prelude.{◌<◌, ℕ};
ghost use Rattle.pipe_motion.specs.Gates.{HasStageFlow};

use nets::{NetBuilder, Valuation, eval};
use pipe_motion::{FlowGates, StageFlowGates, flow_legal_gate, path_gate};
use std::alloc::Global;
use std::test::Fail;
use y86_base::{Items, Memory};

/// What a pipeline register holds. A good instruction may stop the machine, be a ret, or be a mispredicted jump.
#[derive(Clone, Copy, Debug)]
enum Held {
    Bubble,
    Wrong,
    Good,
    Stops,
    Ret,
    RetThatStops,
    Missed,
}

/// A flow, from D to W, and whether the file fetches early from E (`je`) and from M (`rm`).
struct Seen {
    d: Held,
    e: Held,
    m: Held,
    w: Held,
    je: bool,
    rm: bool,
    is_lawful: bool,
    is_on_path: bool,
}

macro_rules! seen {
    ($d:ident, $e:ident, $m:ident, $w:ident, $je:expr, $rm:expr, $lawful:expr, $path:expr) => {
        Seen {
            d: Held::$d,
            e: Held::$e,
            m: Held::$m,
            w: Held::$w,
            je: $je,
            rm: $rm,
            is_lawful: $lawful,
            is_on_path: $path,
        }
    };
}

/// Only the youngest good instruction stops. Wrong ones follow one that stops, or a mispredicted jump in E. A
/// mispredicted jump or a ret is the youngest good instruction, until the file fetches after it.
static SEEN: [Seen; 24] = [
    seen!(Bubble, Bubble, Bubble, Bubble, false, false, true, true),
    seen!(Good, Bubble, Bubble, Bubble, false, false, true, true),
    seen!(Good, Good, Good, Good, false, false, true, true),
    seen!(Good, Stops, Bubble, Bubble, true, true, false, true),
    seen!(Wrong, Stops, Bubble, Bubble, false, false, true, false),
    seen!(Wrong, Good, Bubble, Bubble, true, true, false, true),
    seen!(Wrong, Missed, Bubble, Bubble, false, false, true, false),
    seen!(Good, Wrong, Bubble, Bubble, true, true, false, true),
    seen!(Wrong, Wrong, Missed, Bubble, true, true, false, false),
    seen!(Bubble, Bubble, Missed, Bubble, false, false, true, false),
    seen!(Good, Bubble, Missed, Bubble, false, true, false, true),
    seen!(Good, Bubble, Missed, Bubble, true, false, true, true),
    seen!(Good, Missed, Bubble, Bubble, true, true, false, true),
    seen!(Bubble, Ret, Bubble, Bubble, false, false, true, false),
    seen!(Good, Ret, Bubble, Bubble, true, true, false, true),
    seen!(Good, Bubble, Ret, Bubble, true, true, false, true),
    seen!(Good, Bubble, Bubble, Ret, true, false, false, true),
    seen!(Good, Bubble, Bubble, Ret, false, true, true, true),
    seen!(Bubble, Bubble, Bubble, Ret, false, false, true, false),
    seen!(Wrong, Bubble, Bubble, Stops, false, false, true, false),
    seen!(Wrong, Wrong, Stops, Bubble, false, false, true, false),
    seen!(Wrong, Ret, Bubble, Bubble, true, true, false, false),
    seen!(
        Wrong,
        RetThatStops,
        Bubble,
        Bubble,
        true,
        true,
        false,
        false
    ),
    seen!(Bubble, Bubble, Stops, Stops, true, true, false, false),
];

macro_rules! stage_flow {
    ($good:expr, $wrong:expr, $stops:expr, $ret:expr, $missed:expr) => {
        StageFlowGates {
            good: $good,
            wrong: $wrong,
            stops: $stops,
            ret: $ret,
            missed: $missed,
        }
    };
}

/// The gates of a register's contents; each is `yes` or `no`.
fn stage_flow(held: Held, yes: u64, no: u64) -> StageFlowGates
    ensures { (n : ℕ) → yes < n → no < n → HasStageFlow n result }
{
    match held {
        Held::Bubble => stage_flow!(no, no, no, no, no),
        Held::Wrong => stage_flow!(no, yes, no, no, no),
        Held::Good => stage_flow!(yes, no, no, no, no),
        Held::Stops => stage_flow!(yes, no, yes, no, no),
        Held::Ret => stage_flow!(yes, no, no, yes, no),
        Held::RetThatStops => stage_flow!(yes, no, yes, yes, no),
        Held::Missed => stage_flow!(yes, no, no, no, yes),
    }
}

/// Whether the flow is legal, and on the path.
fn judged(alloc: Global, s: &Seen) -> Result<(bool, bool), Memory> {
    let mut b = NetBuilder::new(alloc, 1);
    let yes = b.constant(true)?;
    let no = b.constant(false)?;
    let view = FlowGates {
        d: stage_flow(s.d, yes, no),
        e: stage_flow(s.e, yes, no),
        m: stage_flow(s.m, yes, no),
        w: stage_flow(s.w, yes, no),
    };
    let lawful = flow_legal_gate(&mut b, &view, s.je, s.rm)?;
    let path = path_gate(&mut b, &view)?;
    let net = b.finish();
    let bits = match vec![in alloc; false; 1] {
        Ok(bits) => Items::of(bits),
        Err(_) => return Err(Memory),
    };
    let valuation = Valuation { bits };
    let is_lawful = eval(alloc, &net, lawful, &valuation)?;
    let is_on_path = eval(alloc, &net, path, &valuation)?;
    Ok((is_lawful, is_on_path))
}

#[test]
fn flows_by_hand(rt: HostRuntime) -> Result<(), Fail> {
    for s in &SEEN {
        let (is_lawful, is_on_path) = judged(rt.alloc(), s)?;
        assert_eq!(rt; is_lawful, s.is_lawful);
        assert_eq!(rt; is_on_path, s.is_on_path);
    }
    Ok(())
}
