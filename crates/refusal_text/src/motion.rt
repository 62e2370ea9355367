//! What goes wrong in the motion of the pipeline registers, in sentences.
use crate::scene::Scene;
use crate::stages::{Held, held_in};
use motion_repairs::{fetched, is_fetch_good, next_flow, path, youngest_stops};
use pipe_diagnosis::register_controls_at;
use pipe_obligations::RULE_COUNT;
use pipe_requirements::{
    FIRST_ON_MOTION, FlowNow, Lines, Now, RegisterControlNow, RegisterControlsNow, StageFlowNow,
    flow_of, leaves, lines_of, loads,
};
use std::alloc::{AllocError, Global};

/// How the pipeline registers move in the situation of a counterexample.
#[derive(Clone, Copy)]
pub struct Motion {
    pub lines: Lines,
    pub view: FlowNow,
    pub controls: RegisterControlsNow,
    /// Whether the fetched instruction is the next one of the program.
    pub is_good: bool,
    /// Whether the program continues at the predicted PC.
    pub is_on_path: bool,
    /// Whether the youngest instruction of the program stops the machine.
    pub stops: bool,
    pub next: FlowNow,
}

/// The motion in a scene.
pub fn motion_of(scene: &Scene<'_>) -> Motion {
    let lines = lines_of(scene.values.bits);
    let view = flow_of(scene.variant, scene.settings, &lines);
    let controls = register_controls_at(&scene.scope());
    let now = Now {
        v: scene.variant,
        s: scene.settings,
        l: &lines,
        y: &view,
        mv: &controls,
        leaves: scene.diagnosis.leaves.items(),
    };
    let is_good = is_fetch_good(&now);
    let facts = fetched(&now);
    let next = next_flow(&controls, is_good, &facts, &view);
    let is_on_path = path(&view);
    let stops = youngest_stops(&view);
    Motion {
        lines,
        view,
        controls,
        is_good,
        is_on_path,
        stops,
        next,
    }
}

/// What a register does in a cycle.
pub fn move_name(control: RegisterControlNow) -> &'static str {
    if control.stall && control.bubble {
        "is stalled and bubbled"
    } else if control.stall {
        "is stalled"
    } else if control.bubble {
        "is bubbled"
    } else {
        "loads"
    }
}

/// What a register holds.
pub fn stage_flow_name(stage: &StageFlowNow) -> &'static str {
    match held_in(stage) {
        Held::Bubble => "a bubble",
        Held::Program => "an instruction of the program",
        Held::WrongPath => "an instruction on the wrong path",
    }
}

/// Sentences that are collected.
#[derive(Drop)]
struct Sentences {
    all: Vec<&'static str>,
}

impl Sentences {
    /// Adds a sentence if it applies.
    fn add_if(&mut self, applies: bool, sentence: &'static str) -> Result<(), AllocError> {
        if applies {
            self.all.push(sentence)?;
        }
        Ok(())
    }
}

/// Adds which registers are stalled and bubbled at once.
fn add_clashes(said: &mut Sentences, k: &RegisterControlsNow) -> Result<(), AllocError> {
    said.add_if(k.f.stall && k.f.bubble, "F is stalled and bubbled at once.")?;
    said.add_if(k.d.stall && k.d.bubble, "D is stalled and bubbled at once.")?;
    said.add_if(k.e.stall && k.e.bubble, "E is stalled and bubbled at once.")?;
    said.add_if(k.m.stall && k.m.bubble, "M is stalled and bubbled at once.")?;
    said.add_if(k.w.stall && k.w.bubble, "W is stalled and bubbled at once.")
}

/// Adds which instruction of the program is lost or done twice.
fn add_losses(
    said: &mut Sentences,
    k: &RegisterControlsNow,
    y: &FlowNow,
) -> Result<(), AllocError> {
    said.add_if(
        y.w.good && k.w.stall,
        "The instruction in W retires, and W keeps it: it retires again.",
    )?;
    said.add_if(
        y.m.good && !loads(k.w),
        "W doesn't load the instruction in M: it is lost.",
    )?;
    said.add_if(
        y.m.good && k.m.stall,
        "M keeps an instruction that goes on to W: it is done twice.",
    )?;
    said.add_if(
        y.e.good && !loads(k.m),
        "M doesn't load the instruction in E: it is lost.",
    )?;
    said.add_if(
        y.e.good && k.e.stall,
        "E keeps an instruction that goes on to M: it is done twice.",
    )?;
    let stays = y.d.good && !leaves(k, y);
    said.add_if(
        stays && k.d.stall && loads(k.e),
        "D keeps an instruction that goes on to E: it is done twice.",
    )?;
    said.add_if(
        stays && !k.d.stall,
        "The instruction in D doesn't go on to E, and D doesn't keep it: it is lost.",
    )
}

/// Whether the youngest instruction of the next cycle may have others on the wrong path after it.
fn may_be_followed(y: &FlowNow) -> bool {
    if y.d.good {
        y.d.stops && !y.d.ret
    } else if y.e.good {
        (y.e.stops && !y.e.ret) || y.e.missed
    } else if y.m.good {
        y.m.stops && !y.m.ret
    } else {
        y.w.good && y.w.stops
    }
}

/// Adds what is wrong with the instructions on the wrong path in the next cycle.
fn add_wrong_path(said: &mut Sentences, y: &FlowNow) -> Result<(), AllocError> {
    said.add_if(
        y.m.wrong,
        "An instruction on the wrong path reaches M, where it changes something.",
    )?;
    said.add_if(
        y.w.wrong,
        "An instruction on the wrong path reaches W, where it changes something.",
    )?;
    said.add_if(
        y.e.wrong && y.d.good,
        "An instruction of the program follows one on the wrong path.",
    )?;
    let kept = !may_be_followed(y);
    said.add_if(
        y.d.wrong && kept,
        "An instruction on the wrong path enters D, and nothing ahead of it will cancel it.",
    )?;
    said.add_if(
        y.e.wrong && kept,
        "An instruction on the wrong path is in E, and nothing ahead of it will cancel it.",
    )
}

/// Adds what follows, in the next cycle, an instruction that nothing may follow.
fn add_followers(said: &mut Sentences, y: &FlowNow, je: bool, rm: bool) -> Result<(), AllocError> {
    let after_e = y.d.good;
    let after_m = after_e || y.e.good;
    let after_w = after_m || y.m.good;
    said.add_if(
        (y.e.stops && after_e) || (y.m.stops && after_m) || (y.w.stops && after_w),
        "An instruction stops the machine, and one that counts as the program's follows it.",
    )?;
    said.add_if(
        (y.e.missed && after_e) || (!je && y.m.missed && after_m),
        "An instruction that counts as the program's follows a mispredicted jump.",
    )?;
    said.add_if(
        (y.e.ret && after_e) || (y.m.ret && after_m) || (!rm && y.w.ret && after_w),
        "An instruction that counts as the program's follows a ret.",
    )
}

/// Adds what is wrong with the fetch, if the program continues at the predicted PC in the next cycle.
fn add_fetch(said: &mut Sentences, m: &Motion) -> Result<(), AllocError> {
    if !path(&m.next) {
        return Ok(());
    }
    let k = &m.controls;
    let enters = m.is_good && loads(k.d);
    said.add_if(
        enters && !loads(k.f),
        "The fetched instruction enters D, and F doesn't load the address after it: it is fetched again.",
    )?;
    said.add_if(
        !enters && !k.f.stall,
        "D doesn't load the program's next instruction, and F goes on: that instruction is skipped.",
    )?;
    said.add_if(
        !enters && k.f.stall && !m.is_on_path,
        "F keeps an address at which the program doesn't go on, and nothing ahead repairs it.",
    )
}

/// Adds what waits forever.
fn add_waits(said: &mut Sentences, m: &Motion) -> Result<(), AllocError> {
    let y = &m.view;
    let drained = !(y.e.good || y.e.wrong || y.m.good || y.m.wrong || y.w.good || y.w.wrong);
    said.add_if(
        y.d.good && drained && !leaves(&m.controls, y),
        "Nothing is ahead of the instruction in D, and it doesn't go on to E.",
    )?;
    said.add_if(
        !(y.d.good || y.d.wrong) && drained && !loads(m.controls.d),
        "The pipeline is empty, and D doesn't load.",
    )
}

/// What an obligation on motion forbids.
#[derive(Clone, Copy)]
enum Forbidden {
    Clashes,
    Losses,
    WrongPath,
    Waits,
}

/// The number of obligations on motion.
const MOTION_COUNT: usize = (RULE_COUNT - FIRST_ON_MOTION + 1) as usize;

/// What each obligation on motion forbids.
static FORBIDDEN: [Forbidden; MOTION_COUNT] = [
    Forbidden::Clashes,
    Forbidden::Losses,
    Forbidden::WrongPath,
    Forbidden::Waits,
    Forbidden::Waits,
];

/// Adds what is wrong with the motion.
fn add_faults(
    said: &mut Sentences,
    scene: &Scene<'_>,
    m: &Motion,
    forbidden: Forbidden,
) -> Result<(), AllocError> {
    match forbidden {
        Forbidden::Clashes => add_clashes(said, &m.controls),
        Forbidden::Losses => add_losses(said, &m.controls, &m.view),
        Forbidden::WrongPath => {
            add_wrong_path(said, &m.next)?;
            add_followers(said, &m.next, scene.settings.je, scene.settings.rm)?;
            add_fetch(said, m)
        }
        Forbidden::Waits => add_waits(said, m),
    }
}

/// What is wrong with the motion at the counterexample of an obligation; nothing if it isn't on motion.
pub fn motion_faults(
    alloc: Global,
    scene: &Scene<'_>,
    rule: u32,
    m: &Motion,
) -> Result<Vec<&'static str>, AllocError> {
    let mut said = Sentences {
        all: Vec::new(alloc),
    };
    let place = u32::wrapping_sub(rule, FIRST_ON_MOTION) as usize;
    if let Some(forbidden) = FORBIDDEN.get(place).copied() {
        add_faults(&mut said, scene, m, forbidden)?;
    }
    Ok(said.all)
}

/// Where the fetch goes, and whether the program continues there.
pub fn fetch_sentence(m: &Motion) -> &'static str {
    if m.stops {
        "The youngest instruction of the program stops the machine, so the fetch is on the wrong path."
    } else if m.is_good {
        "The program goes on there."
    } else if m.is_on_path {
        "The program goes on at F_predPC, so the fetch is on the wrong path."
    } else {
        "The program doesn't go on there, so the fetch is on the wrong path."
    }
}
