//! What a sequential datapath is, by the type of its state.
ghost use Rattle.std.specs.Prelude.{◌≡◌, ℕ, length};
ghost use Rattle.hcl_types.specs.Signals.{Starts};
ghost use Rattle.hcl_types.specs.Terms.{at};
ghost use Rattle.dp_signals.specs.PipeEquations.{constants};
ghost use Rattle.yis_run.specs.Report.{ended};
ghost use Rattle.dp_sequential.specs.Laws.{IsSequential};
ghost use Rattle.dp_sequential.specs.Path.{AreGivenIn, SequentialPath, machine_at};
ghost use Rattle.dp_signals.specs.declared.sequential_rows.SignalRows.{SignalRows as Rows};

use dp_signals::SignalRows;
use hcl_types::NameId;
use y86_base::Image;
use yis_run::End;

/// A sequential datapath, by the type of its state as a cycle begins. Datapaths differ only in what this state holds of
/// the previous instruction.
pub trait Sequential: Drop {
    /// The rows of its signals.
    const ROWS: SignalRows;

    /// The first row that a file defines.
    const FIRST: NameId;

    ghost ROWS: { Rows };

    ghost FIRST: { ℕ };

    /// The datapath as contracts see it.
    ghost path: { SequentialPath Self };

    /// The state as the first cycle begins, with a memory image.
    fn start(mem: Image) -> Self
        ensures { result ≡ path.start mem };

    /// The parts of a machine that the state holds, at this PC.
    fn view(&self, pc: u64) -> End<'_>
        ensures regs { result.regs.now ≡ path.regs self.now }
        ensures flags { result.flags ≡ path.flags self.now }
        ensures pc { result.pc ≡ pc }
        ensures stat { result.stat ≡ path.stat self.now }
        ensures mem { result.mem.now ≡ path.mem self.now }
        ensures whole { ended result ≡ machine_at path self.now pc };

    /// Puts the words of the state into their rows. The values already begin with the constants.
    fn put_given(&self, values: &mut [u64])
        requires constants { Starts constants values.old }
        requires size { length values.old ≡ path.count }
        ensures { AreGivenIn path self.now values.new };

    /// The PC at which a cycle that begins in this state is likely to work.
    fn likely_pc(&self) -> u64;

    /// The PC at which a cycle with these values works.
    fn pc(&self, values: &[u64]) -> u64
        ensures { result ≡ path.pc self.now (at values.now) };

    /// Goes to the state after a cycle with these values.
    fn advance(&mut self, values: &[u64])
        ensures { self.new ≡ path.next self.old (at values.now) };

    ghost lawful: { IsSequential ROWS path };

    ghost first: { FIRST ≡ path.first };
}
