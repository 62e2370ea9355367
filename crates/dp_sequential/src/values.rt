//! The values of the signals in one cycle.
ghost use Rattle.std.specs.Prelude.{◌≡◌, ◌≤◌, IsTrue, length};
ghost use Rattle.hcl_types.specs.Signals.{Starts};
ghost use Rattle.hcl_types.specs.Tables.{IsBound, IsOrderOf};
ghost use Rattle.hcl_types.specs.Terms.{at};
ghost use Rattle.y86_isa.specs.Blocks as isa;
ghost use Rattle.dp_signals.specs.PipeEquations.{constants};
ghost use Rattle.dp_signals.specs.Tables.{constant_count};
ghost use Rattle.yis_run.specs.Report.{ended};
ghost use Rattle.dp_sequential.specs.Cycle.{block_by, fetched_by, worked_by};
ghost use Rattle.dp_sequential.specs.Path.{Solves, machine_at};

use crate::path::Sequential;
use dp_signals::{
    Hardware, SignalRows, at, cnd, dmem_error, fetch_ra, fetch_rb, fill, put_constant_words,
    reg_val, val_c, val_e, val_m, val_p,
};
use hcl_types::{NameId, OrderedDesign, SignalEval};
use std::marker::Model;
use y86_base::Variant;
use y86_isa::{Reading, read};
use yis_run::End;

/// The constants in their rows. Each other row is 0 until it is computed.
pub fn constants_in<const N: usize>() -> [u64; N]
    requires { constant_count ≤ N }
    ensures { Starts constants result }
{
    let mut values = [0; N];
    put_constant_words(&mut values);
    values
}

/// The value of the hardware in a row, for the stages from decode on.
#[tactic(auto, unfolding(crate::specs::Cycle::worked_by))]
#[inline(always)]
fn worked(rows: &SignalRows, m: End<'_>, row: NameId, values: &[u64]) -> u64
    ensures { result ≡ worked_by rows.now (ended m.entry) row (at values.now) }
{
    if row == rows.val_a {
        reg_val(m.regs, at(values, rows.src_a))
    } else if row == rows.val_b {
        reg_val(m.regs, at(values, rows.src_b))
    } else if row == rows.val_e {
        val_e(
            at(values, rows.alufun),
            at(values, rows.alu_a),
            at(values, rows.alu_b),
        )
    } else if row == rows.cnd {
        cnd(at(values, rows.ifun), m.flags)
    } else if row == rows.val_m {
        val_m(m.mem, at(values, rows.mem_addr), at(values, rows.mem_read))
    } else if row == rows.dmem_error {
        dmem_error(
            m.mem,
            at(values, rows.mem_addr),
            at(values, rows.mem_read),
            at(values, rows.mem_write),
        )
    } else {
        0
    }
}

/// The value of the hardware in a row: a field or word of the fetch stage after the first byte, or a row of a later
/// stage.
#[tactic(auto, unfolding(crate::specs::Cycle::fetched_by))]
#[inline(always)]
fn fetched(rows: &SignalRows, m: End<'_>, row: NameId, values: &[u64]) -> u64
    ensures { result ≡ fetched_by rows.now (ended m.entry) row (at values.now) }
{
    if row == rows.r_a {
        fetch_ra(m.mem, m.pc, at(values, rows.need_regids))
    } else if row == rows.r_b {
        fetch_rb(m.mem, m.pc, at(values, rows.need_regids))
    } else if row == rows.val_c {
        val_c(
            m.mem,
            m.pc,
            at(values, rows.need_regids),
            at(values, rows.need_val_c),
        )
    } else if row == rows.val_p {
        val_p(
            m.pc,
            at(values, rows.need_regids),
            at(values, rows.need_val_c),
        )
    } else {
        worked(rows, m, row, values)
    }
}

/// The hardware in the state in which a cycle begins. It caches its last read of the instruction memory: `reading` is
/// the instruction at `pc`.
#[derive(Drop)]
struct Units<'a, S: Sequential> {
    variant: Variant,
    state: &'a S,
    pc: u64,
    reading: Reading,
}

impl<'a, S: Sequential> Model for Units<'a, S> {
    ghost use Rattle.std.specs.Prelude.{◌≡◌};
    ghost use Rattle.y86_isa.specs.Blocks as isa;
    ghost use Rattle.dp_sequential.specs.Machine.{UnitsView};

    ghost Value = { UnitsView S };

    ghost view = { λ h. record { variant = h.variant; state = h.state.now } };

    ghost invariant = { λ h. h.reading ≡ isa.reading h.variant (S.path.mem h.state.now) h.pc };
}

impl<'a, S: Sequential> Units<'a, S> {
    /// The hardware as a cycle begins.
    #[inline(always)]
    fn new(variant: Variant, state: &'a S) -> Units<'a, S>
        ensures { result ≡ record { variant = variant; state = state.now } }
    {
        let pc = state.likely_pc();
        let reading = read(variant, state.view(pc).mem, pc);
        Units {
            variant,
            state,
            pc,
            reading,
        }
    }

    /// How the bytes at `pc` decode.
    #[inline(always)]
    fn read(&mut self, pc: u64) -> Reading
        ensures read { result ≡ isa.reading self.old.variant (S.path.mem self.old.state) pc }
        ensures same { self.new ≡ self.old }
    {
        if pc != self.pc {
            self.reading = read(self.variant, self.state.view(pc).mem, pc);
            self.pc = pc;
        }
        self.reading
    }

    /// The value of the hardware in a row.
    #[tactic(auto, unfolding(crate::specs::Cycle::block_by))]
    #[inline(always)]
    fn unit(&mut self, row: NameId, values: &[u64]) -> u64
        ensures value { result ≡ block_by S.ROWS self.old.variant (machine_at S.path self.old.state (S.path.pc self.old.state (at values.now))) row (at values.now) }
        ensures same { self.new ≡ self.old }
    {
        let state = self.state;
        let pc = state.pc(values);
        let m = state.view(pc);
        let rows = S::ROWS;
        if row == rows.imem_icode {
            self.read(pc).icode
        } else if row == rows.imem_ifun {
            self.read(pc).ifun
        } else if row == rows.imem_error {
            u64::from(self.read(pc).error)
        } else {
            fetched(&rows, m, row, values)
        }
    }
}

impl<'a, S: Sequential> Hardware for Units<'a, S> {
    ghost given = { λ h. S.path.given h.state };

    ghost block = { λ h. S.path.block h.variant h.state };

    #[inline(always)]
    fn value(&mut self, row: NameId, values: &[u64]) -> u64 {
        self.unit(row, values)
    }
}

/// The values of the signals in a cycle that begins in the state `s`. It reuses the values of another cycle, in which
/// the constants are already set. The signals are computed in an order of the design, without allocating memory. `fits`
/// says whether the evaluator's assumptions fit the constants; callers compute it once for a run.
#[inline(always)]
pub fn solve_in<S: Sequential, C: SignalEval>(
    variant: Variant,
    ordered: &OrderedDesign,
    s: &S,
    c: &mut C,
    fits: bool,
    values: &mut [u64],
)
    requires evaluates { C.evaluates c.old ordered.now.design.terms }
    requires fits { IsTrue fits → Starts (C.assumes c.old) constants }
    requires bound { IsBound S.path.table ordered.now.design.terms }
    requires ordered { IsOrderOf S.path.table ordered.now.design.terms ordered.now.order.ids }
    requires constants { Starts constants values.old }
    requires size { length values.old ≡ S.path.count }
    ensures solves { Solves S.path variant ordered.now.design.terms s.now (at values.new) }
    ensures constants { Starts constants values.new }
    ensures size { length values.new ≡ S.path.count }
    ensures kept { C.evaluates c.new ordered.now.design.terms }
    ensures same { C.assumes c.new ≡ C.assumes c.old }
{
    s.put_given(values);
    let mut hardware = Units::new(variant, s);
    fill(&mut hardware, ordered, c, fits, S::FIRST, values);
}
