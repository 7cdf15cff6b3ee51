//! Runs in the laboratory.
ghost use Rattle.std.specs.Prelude.{◌≡◌, ◌≤◌, [], IfOk};
ghost use Rattle.std.specs.String.{string_bytes};
ghost use Rattle.swallow_top.specs.Stories.{no_trace};
ghost use Rattle.command_words.specs.Words.{said};
ghost use Rattle.run_command.specs.Written.{sinking};
ghost use Rattle.laboratory.specs.Fates.{asked_of};
ghost use Rattle.laboratory.specs.Runs.{ran};
ghost use Rattle.laboratory.specs.Shelves.{IsLabShelf};
ghost use Rattle.laboratory.specs.Calls as spec;

use crate::lines::write_line;
use crate::ties::{Divisor, StillClock, TiedFates};
use crate::{Lab, LabFates, LabFault, lab_words, shelf_for};
use medium_port::{MemoryMedium, MemoryShelf};
use std::alloc::{AllocError, Global};
use std::marker::{Brand, PhantomData};
use std::sync::Wait;
use std::thread::Threads;
use stream_port::{FixedClock, Sink, Source};
use swallow_top::{Finish, Told, no_votes, swallow};
use value_form::Items;

// The words of a text, with a space between each two.
fn cut<'a>(alloc: Global, text: &'a str) -> Result<Vec<&'a str>, AllocError>
    ensures { IfOk result (λ words. said words.items ≡ spec.cut text.now) }
{
    text.split(' ').collect(alloc)
}

// A call in which nothing was run.
fn quiet(alloc: Global, status: u8) -> Finish<MemoryMedium, LabFates, FixedClock>
    ensures status { result.status ≡ status }
    ensures trace { result.trace ≡ no_trace }
    ensures media { result.media ≡ [] }
    ensures fates { asked_of result.fates ≡ [] }
    ensures clock { result.clock ≡ record { moment = 0; calls = 0 } }
    ensures votes { result.votes ≡ no_trace }
{
    Finish {
        status,
        trace: Told::none(alloc),
        media: Items::of(Vec::new(alloc)),
        fates: LabFates::new(alloc, 0),
        clock: FixedClock::new(0),
        votes: no_votes(alloc),
    }
}

// Calls the top call over a shelf, with messages lost by the divisor.
fn over<D: Divisor + Send, I: Source, O: Sink, R: Threads + Wait + Sync>(
    rt: &R,
    alloc: Global,
    lab: &Lab,
    words: &[&str],
    shelf: MemoryShelf,
    source: &mut I,
    sink: &mut O,
) -> Finish<MemoryMedium, LabFates, FixedClock>
    requires words { said words.now ≡ spec.cut (string_bytes lab.now.text) }
    requires shelf { IsLabShelf lab.now shelf }
    requires lose { lab.now.lose ≡ D.divisor }
    ensures { spec.RanAs (ran result.status result.trace result.media result.fates result.clock result.votes
        (I.left source.old) (I.left source.new) (I.faults source.old) (I.faults source.new)
        (sinking (O.taken sink.old) (O.taken sink.new) (O.faults sink.old) (O.faults sink.new))) lab.now }
{
    let mut shelf = shelf;
    let fates: TiedFates<D> = TiedFates {
        fates: LabFates::new(alloc, lab.lose),
        of: PhantomData,
    };
    let clock = StillClock {
        clock: FixedClock::new(0),
    };
    let finish = swallow(rt, alloc, words, source, sink, &mut shelf, fates, clock);
    Finish {
        status: finish.status,
        trace: finish.trace,
        media: finish.media,
        fates: finish.fates.fates,
        clock: finish.clock.clock,
        votes: finish.votes,
    }
}

// Calls the top call over media in memory.
fn run<D: Divisor + Send, I: Source, O: Sink, R: Threads + Wait + Sync>(
    rt: &R,
    alloc: Global,
    lab: &Lab,
    source: &mut I,
    sink: &mut O,
) -> Finish<MemoryMedium, LabFates, FixedClock>
    requires some { 1 ≤ lab.now.pages }
    requires most { lab.now.pages ≤ 1048576 }
    requires lose { lab.now.lose ≡ D.divisor }
    ensures { spec.MayHaveRun (ran result.status result.trace result.media result.fates result.clock result.votes
        (I.left source.old) (I.left source.new) (I.faults source.old) (I.faults source.new)
        (sinking (O.taken sink.old) (O.taken sink.new) (O.faults sink.old) (O.faults sink.new))) lab.now }
{
    let Ok(words) = cut(alloc, lab.text.as_str()) else {
        return quiet(alloc, 7);
    };
    let Ok(shelf) = shelf_for(alloc, lab) else {
        return quiet(alloc, 7);
    };
    over::<D, I, O, R>(rt, alloc, lab, words.as_slice(), shelf, source, sink)
}

/// Does in memory what the words say, which are those of [`lab_words`]: the top call with the words of
/// their text, over blank media of as many pages as they say, with messages lost by the divisor that they
/// say, and with a stop of the first repository's media at the gate of the page that they say: of its volume
/// 0, and of that on which it votes. The clock stands at 0.
///
/// The status is that of the top call; else it is 1, where the laboratory's own words are refused and
/// `swallow_lab: words` was written, or 7, where memory runs out.
pub fn lab<I: Source, O: Sink, R: Threads + Wait + Sync>(
    rt: &R,
    alloc: Global,
    words: &[&str],
    source: &mut I,
    sink: &mut O,
) -> Finish<MemoryMedium, LabFates, FixedClock>
    ensures promise { spec.LabPromise
        (ran result.status result.trace result.media result.fates result.clock result.votes
        (I.left source.old) (I.left source.new) (I.faults source.old) (I.faults source.new)
        (sinking (O.taken sink.old) (O.taken sink.new) (O.faults sink.old) (O.faults sink.new))) (said words.now) }
{
    match lab_words(alloc, words) {
        Ok(lab) => run::<Brand, I, O, R>(rt, alloc, &lab, source, sink),
        Err(LabFault::Words) => {
            write_line(sink, b"swallow_lab: words\n");
            quiet(alloc, 1)
        }
        Err(LabFault::NoMemory) => quiet(alloc, 7),
    }
}
