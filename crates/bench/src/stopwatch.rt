use minimize::{Step, Watch};
use std::io;
use std::rt::Clock;
use std::time::{Duration, Instant};

// How many steps compiling has.
pub(crate) const STEPS: usize = 6;

// Takes the time since its start when a step is done.
#[derive(Clone, Copy)]
pub(crate) struct Stopwatch<'a, C> {
    clock: &'a C,
    start: Instant,
    ends: [Duration; STEPS],
}

impl<'a, C: Clock> Stopwatch<'a, C> {
    pub(crate) fn start(clock: &'a C) -> io::Result<Stopwatch<'a, C>> {
        Ok(Stopwatch {
            clock,
            start: Instant::now(clock)?,
            ends: [Duration::ZERO; STEPS],
        })
    }

    // The time since the start; none where the clock cannot be read.
    pub(crate) fn elapsed(&self) -> Duration {
        self.start.elapsed(self.clock).unwrap_or(Duration::ZERO)
    }

    // The time that each step took.
    pub(crate) fn times(&self) -> [Duration; STEPS] {
        let mut times = self.ends;
        let mut before = Duration::ZERO;
        for time in times.iter_mut() {
            let end = *time;
            *time = end.saturating_sub(before);
            before = end;
        }
        times
    }
}

impl<C: Clock> Watch for Stopwatch<'_, C> {
    // Nothing is said of how it changes.
    ghost told = { λ before step after. Unit {0} };

    fn done(&mut self, step: Step) {
        let elapsed = self.elapsed();
        if let Some(end) = self.ends.get_mut(step as usize) {
            *end = elapsed;
        }
    }
}
