use crate::memories::Room;
use crate::stopwatch::{STEPS, Stopwatch};
use minimize::Report;
use std::alloc::Global;
use std::rt::Clock;
use std::time::Duration;
use tables::Source;
use weights::Coded;

// After so many milliseconds no further run is begun.
const ENOUGH: u64 = 1500;

// What compiling a source told, and how long it took.
#[derive(Clone, Copy)]
pub(crate) struct Measured {
    pub(crate) states: u16,
    pub(crate) letters: u8,
    pub(crate) report: Report,
    // of targets and codes
    pub(crate) sum: u64,
    pub(crate) pass: Duration,
    pub(crate) steps: [Duration; STEPS],
    pub(crate) whole: Duration,
}

// One pass over the arcs: the sum of all targets and codes of weights. A compiler may add up the equal arcs of a ring at once, so that a
// ring is judged by its milliseconds.
fn pass<W: Coded, S: Source<W>>(source: &S) -> u64 {
    let mut sum = 0u64;
    for state in 0..source.states() {
        for letter in 0..source.letters() {
            let target = source.target(state, letter).map_or(0, u64::from);
            let code = source
                .weight(state, letter)
                .map_or(0, |weight| u64::from(weight.code()));
            sum = sum.wrapping_add(target).wrapping_add(code);
        }
    }
    sum
}

// One pass and one compilation.
fn measure_once<W: Coded, S: Source<W>, C: Clock>(
    source: &S,
    clock: &C,
    alloc: Global,
) -> anyhow::Result<Measured> {
    let room = Room::new(source, alloc)?;
    let watch = Stopwatch::start(clock)?;
    let sum = pass(source);
    let pass = watch.elapsed();
    let mut watch = Stopwatch::start(clock)?;
    let report = room.compile(source, &mut watch)?;
    let whole = watch.elapsed();
    Ok(Measured {
        states: source.states(),
        letters: source.letters(),
        report,
        sum,
        pass,
        steps: watch.times(),
        whole,
    })
}

// The same so many times at most: the fastest pass and the fastest compilation.
pub(crate) fn measure<W: Coded, S: Source<W>, C: Clock>(
    source: &S,
    clock: &C,
    runs: u8,
    alloc: Global,
) -> anyhow::Result<Measured> {
    let watch = Stopwatch::start(clock)?;
    let mut fastest = measure_once(source, clock, alloc)?;
    for _ in 1..runs {
        if watch.elapsed() > Duration::from_millis(ENOUGH) {
            break;
        }
        let again = measure_once(source, clock, alloc)?;
        let pass = fastest.pass.min(again.pass);
        if again.whole < fastest.whole {
            fastest = again;
        }
        fastest.pass = pass;
    }
    Ok(fastest)
}
