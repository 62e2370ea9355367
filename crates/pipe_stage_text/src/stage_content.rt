//! What a stage holds.
ghost use Rattle.std.specs.Prelude.{◌≡◌};
ghost use Rattle.pipe_stage_text.specs.StageContents as spec;

/// What a stage holds: its row in the diagram, and for an instruction its address and its fetched fields. `failed`
/// means that a byte of the instruction is outside the memory.
#[derive(Clone, Copy, Debug, PartialEq, Eq)]
pub struct StageContent {
    pub row: u64,
    pub live: bool,
    pub failed: bool,
    pub addr: u64,
    pub icode: u64,
    pub ifun: u64,
    pub r_a: u64,
    pub r_b: u64,
    pub val_c: u64,
}

impl StageContent {
    /// A bubble.
    pub fn bubble(row: u64) -> StageContent
        ensures { result ≡ spec.bubble row }
    {
        StageContent {
            row,
            live: false,
            failed: false,
            addr: 0,
            icode: 1,
            ifun: 0,
            r_a: 15,
            r_b: 15,
            val_c: 0,
        }
    }
}
