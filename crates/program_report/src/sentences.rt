//! Prints the outcome of a watched run as sentences.
ghost use Rattle.std.specs.Prelude.{◌≡◌, ◌≤◌};
ghost use Rattle.program_check.specs.declared.watching.Watched.TheVariants.{Apart, Meets};
ghost use Rattle.program_report.specs.Sentences as spec;
ghost use Rattle.program_report.specs.Sentences.{open_text, meets_text, stops_text, watched_text};
ghost use Rattle.wb_io.specs.Causes.{CountsFaults};
ghost use Rattle.wb_io.specs.Sinks.{AppendsText};

use program_check::{NearFetch, Watched};
use wb_io::{Failed, Sink, put_pieces};
use y86_base::Numeral;

#[tactic(auto, unfolding(crate::specs::Sentences::stops_text))]
fn put_stops<O: Sink>(steps: u64, out: &mut O) -> Result<(), Failed>
    ensures puts { AppendsText (O.taken out.old) (O.taken out.new) result (stops_text steps) }
    ensures counts { CountsFaults (O.faults out.old) (O.faults out.new) result }
{
    let steps = Numeral::decimal(steps);
    put_pieces(
        out,
        &[
            b"The program stops in step ",
            steps.as_bytes(),
            b".\nNo instruction fetches a byte that one of the three instructions before it stored.\nUnder every HCL file that `y86 check pipe` accepts, `y86 psim` therefore reports what `y86 yis` reports.\nAll three need the same --full; the runs need the same --mem, and `y86 psim` a --limit of at least five cycles for each step.\n",
        ],
    )
}

#[tactic(auto, unfolding(crate::specs::Sentences::open_text))]
fn put_open<O: Sink>(steps: u64, out: &mut O) -> Result<(), Failed>
    ensures puts { AppendsText (O.taken out.old) (O.taken out.new) result (open_text steps) }
    ensures counts { CountsFaults (O.faults out.old) (O.faults out.new) result }
{
    let steps = Numeral::decimal(steps);
    put_pieces(
        out,
        &[
            b"The program hasn't stopped by the end of step ",
            steps.as_bytes(),
            b".\nSo far no instruction has fetched a byte that one of the three instructions before it stored.\nA larger --limit may decide.\n",
        ],
    )
}

/// A distance as a number of steps, in words.
fn distance_word(distance: u64) -> &'static [u8]
    ensures { result.now ≡ spec.distance_word distance }
{
    if distance == 1 {
        b"one step"
    } else if distance == 2 {
        b"two steps"
    } else {
        b"three steps"
    }
}

#[tactic(auto, unfolding(crate::specs::Sentences::meets_text))]
fn put_meets<O: Sink>(found: NearFetch, out: &mut O) -> Result<(), Failed>
    ensures puts { AppendsText (O.taken out.old) (O.taken out.new) result (meets_text found) }
    ensures counts { CountsFaults (O.faults out.old) (O.faults out.new) result }
{
    let steps = Numeral::decimal(found.steps);
    let pc = Numeral::hex(3, found.pc);
    let storer = Numeral::hex(3, found.storer);
    let store = Numeral::hex(3, found.store);
    put_pieces(
        out,
        &[
            b"The instruction at 0x",
            pc.as_bytes(),
            b" fetches a byte that the instruction at 0x",
            storer.as_bytes(),
            b" stored ",
            distance_word(found.distance),
            b" before.\nThe store writes the 8 bytes from 0x",
            store.as_bytes(),
            b" on. Steps before the fetch: ",
            steps.as_bytes(),
            b".\nA pipeline may have fetched the old byte, so the theorem about accepted HCL files doesn't cover this program.\nThese two would be no reason if at least three other instructions ran between them.\n",
        ],
    )
}

/// Writes the outcome. It allocates nothing.
#[tactic(auto, unfolding(crate::specs::Sentences::watched_text))]
pub fn put_watched<O: Sink>(watched: Watched, out: &mut O) -> Result<(), Failed>
    ensures puts { AppendsText (O.taken out.old) (O.taken out.new) result (watched_text watched) }
    ensures counts { CountsFaults (O.faults out.old) (O.faults out.new) result }
{
    match watched {
        Watched::Apart(steps, true) => put_stops(steps, out),
        Watched::Apart(steps, false) => put_open(steps, out),
        Watched::Meets(found) => put_meets(found, out),
    }
}

/// The exit status: 0 if the theorem covers the program, else 1.
pub fn watched_status(watched: Watched) -> u8
    ensures status { result ≡ spec.watched_status watched }
    ensures low { result ≤ 1 }
{
    match watched {
        Watched::Apart(_, true) => 0,
        Watched::Apart(_, false) => 1,
        Watched::Meets(_) => 1,
    }
}
