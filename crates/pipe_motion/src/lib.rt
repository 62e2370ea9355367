//! The states of the pipeline registers, in formulas: which flows of them are legal, how a flow moves in a cycle, and
//! what is demanded of the stall and bubble signals (CS:APP 3e, section 4.5.8, pipeline control).
//!
//! An example: E holds a good load, and D a good `addq` that needs the loaded word. D is stalled and E bubbled, so in
//! the next cycle D still holds the `addq`, E a bubble, and M the load.
#![tactic(auto, using(nets::proofs::Truths::begins_more, nets::proofs::Truths::begins_self))]

mod flow_gates;
mod legal_flow;
mod motion;
mod obligations;
mod settings;

pub use flow_gates::{FlowGates, RegisterControlGates, RegisterControlsGates, StageFlowGates};
pub use legal_flow::{flow_legal_gate, of_youngest, path_gate, stops_gate};
pub use motion::{fetched_flow, load_gate, move_flow};
pub use obligations::{
    leaves_gate, obligation_23, obligation_24, obligation_25, obligation_26, obligation_27,
};
pub use settings::Settings;
