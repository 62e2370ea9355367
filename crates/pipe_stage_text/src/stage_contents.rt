//! What the stages hold, by rows of the diagram: when a pipeline register moves, its contents move.
ghost use Rattle.std.specs.Prelude.{◌≡◌, ◌≤◌, ◌<◌, ◌+◌, ◌^◌};
ghost use Rattle.dp_signals.specs.PipeCycle as pipe;
ghost use Rattle.hcl_types.specs.Terms.{at};
ghost use Rattle.pipe_stage_text.specs.StageContents as spec;

use crate::stage_content::StageContent;
use dp_signals::{PipeState, PipeValues, RegisterUpdate, RegisterUpdates, at, pipe_row as row};
use y86_isa::register_fields;

/// What the pipeline registers hold at the beginning of a cycle; the fetch of the cycle before, if it waits, otherwise
/// a bubble of row 0; and the number of rows so far.
#[derive(Clone, Copy, Debug)]
pub struct StageContents {
    pub kept: StageContent,
    pub d: StageContent,
    pub e: StageContent,
    pub m: StageContent,
    pub w: StageContent,
    pub rows: u64,
}

/// What the stages hold before the first cycle: bubbles without a row.
pub(crate) fn first_watch() -> StageContents
    ensures { result ≡ spec.first_watch }
{
    let none = StageContent::bubble(0);
    StageContents {
        kept: none,
        d: none,
        e: none,
        m: none,
        w: none,
        rows: 0,
    }
}

/// Whether the fetch from this address is the one of the cycle before, which waits.
fn waits(watch: &StageContents, pc: u64) -> bool
    ensures { result ≡ spec.waits watch.now pc }
{
    watch.kept.live && watch.kept.addr == pc
}

/// What is fetched in a cycle.
pub(crate) fn fetched(watch: &StageContents, p: &PipeState, values: &PipeValues) -> StageContent
    requires { watch.now.rows < 2 ^ 63 }
    ensures { result ≡ spec.fetched watch.now p.now (at values.now) }
{
    let pc = at(values, row::F_PC);
    let (r_a, r_b) = register_fields(&p.mem, pc, at(values, row::NEED_REGIDS) != 0);
    let row = if waits(watch, pc) {
        watch.kept.row
    } else {
        watch.rows + 1
    };
    StageContent {
        row,
        live: true,
        failed: at(values, row::IMEM_ERROR) != 0,
        addr: pc,
        icode: at(values, row::F_ICODE),
        ifun: at(values, row::F_IFUN),
        r_a,
        r_b,
        val_c: at(values, row::F_VAL_C),
    }
}

/// The number of rows after the fetch of a cycle.
fn rows_fetched(watch: &StageContents, pc: u64) -> u64
    requires { watch.now.rows < 2 ^ 63 }
    ensures rows { result ≡ spec.rows_fetched watch.now pc }
    ensures few { result ≤ watch.now.rows + 1 }
{
    if waits(watch, pc) {
        watch.rows
    } else {
        watch.rows + 1
    }
}

/// The number of rows after a register's update: a bubble adds one.
fn counted(update: RegisterUpdate, rows: u64) -> u64
    requires { rows < 2 ^ 63 + 10 }
    ensures rows { result ≡ rows + spec.bubbles update }
    ensures few { result ≤ rows + 1 }
{
    match update {
        RegisterUpdate::Bubble => rows + 1,
        RegisterUpdate::Stay | RegisterUpdate::Load => rows,
    }
}

/// What a register holds next.
fn moved_stage(
    update: RegisterUpdate,
    held: StageContent,
    row: u64,
    loaded: StageContent,
) -> StageContent
    ensures { result ≡ pipe.moved update held (spec.bubble row) loaded }
{
    match update {
        RegisterUpdate::Stay => held,
        RegisterUpdate::Bubble => StageContent::bubble(row),
        RegisterUpdate::Load => loaded,
    }
}

/// The fetch that is made again in the next cycle, because F stays and D doesn't load it.
fn kept(movers: &RegisterUpdates, fetch: StageContent) -> StageContent
    ensures { result ≡ spec.kept movers.now fetch }
{
    match movers.f {
        RegisterUpdate::Stay => match movers.d {
            RegisterUpdate::Load => StageContent::bubble(0),
            RegisterUpdate::Stay | RegisterUpdate::Bubble => fetch,
        },
        RegisterUpdate::Bubble | RegisterUpdate::Load => StageContent::bubble(0),
    }
}

/// What the stages hold in the next cycle.
#[tactic(auto, unfolding(crate::specs::StageContents::moved_watch))]
pub(crate) fn moved_watch(
    watch: &StageContents,
    fetch: StageContent,
    movers: &RegisterUpdates,
) -> StageContents
    requires { watch.now.rows < 2 ^ 63 }
    ensures watch { result ≡ spec.moved_watch watch.now fetch movers.now }
    ensures few { result.rows ≤ watch.now.rows + 5 }
{
    let rows = rows_fetched(watch, fetch.addr);
    let w_row = counted(movers.w, rows);
    let m_row = counted(movers.m, w_row);
    let e_row = counted(movers.e, m_row);
    let d_row = counted(movers.d, e_row);
    StageContents {
        kept: kept(movers, fetch),
        d: moved_stage(movers.d, watch.d, d_row, fetch),
        e: moved_stage(movers.e, watch.e, e_row, watch.d),
        m: moved_stage(movers.m, watch.m, m_row, watch.e),
        w: moved_stage(movers.w, watch.w, w_row, watch.m),
        rows: d_row,
    }
}
