//! The states of the pipeline registers, and their stall and bubble signals, as gates.

/// The gates of a register's state: it holds a good instruction, or a wrong one; and for a good one: it stops, it is a
/// ret, it is a mispredicted jump (`missed`).
#[derive(Clone, Copy, Debug)]
pub struct StageFlowGates {
    pub good: u64,
    pub wrong: u64,
    pub stops: u64,
    pub ret: u64,
    pub missed: u64,
}

/// The gates of D, E, M and W.
#[derive(Clone, Copy, Debug)]
pub struct FlowGates {
    pub d: StageFlowGates,
    pub e: StageFlowGates,
    pub m: StageFlowGates,
    pub w: StageFlowGates,
}

/// The gates of a register's stall and bubble signals.
#[derive(Clone, Copy, Debug)]
pub struct RegisterControlGates {
    pub stall: u64,
    pub bubble: u64,
}

/// The gates of the ten stall and bubble signals.
#[derive(Clone, Copy, Debug)]
pub struct RegisterControlsGates {
    pub f: RegisterControlGates,
    pub d: RegisterControlGates,
    pub e: RegisterControlGates,
    pub m: RegisterControlGates,
    pub w: RegisterControlGates,
}
