#![tactic(auto)]

// Compiles tables of many sorts, and prints the counts of each and, with the argument `full`, the time of each step as a multiple of
// the time of one pass over the arcs. Otherwise it compiles small tables only, and prints nothing that differs from run to run.
mod drawn;
mod measure;
mod memories;
mod sort;
mod stopwatch;

use anyhow::bail;
use drawn::{Purpose, element};
use measure::{Measured, measure};
use memories::Memories;
use sort::{Plan, SORTS};
use sources::Ring;
use std::env;
use std::time::Duration;
use tables::Source;
use weights::{BeamWheel, Check, Coded, Wheel};

// How many states and letters, in a short run and in a full one.
const SHORT: [(u16, u8); 2] = [(64, 2), (256, 4)];

const FULL: [(u16, u8); 5] = [(64, 2), (256, 4), (1024, 16), (4096, 2), (4096, 64)];

// What is run and printed.
#[derive(Clone, Copy, PartialEq, Eq, Debug)]
enum Length {
    Short,
    Full,
}

impl Length {
    fn sizes(self) -> &'static [(u16, u8)] {
        match self {
            Length::Short => &SHORT,
            Length::Full => &FULL,
        }
    }

    // How often a table is compiled; the fastest run counts.
    fn runs(self) -> u8 {
        match self {
            Length::Short => 1,
            Length::Full => 20,
        }
    }
}

// The name of a kind that is tried, by its number in files.
fn kind_name<W: Coded>() -> &'static str {
    match W::kind_number() {
        1 => "check",
        2 => "wheel",
        3 => "beam wheel",
        _ => "other",
    }
}

fn print_head(rt: &HostRuntime, length: Length) -> anyhow::Result<()> {
    print!(rt;
        "{:<11}{:<7}{:>6}{:>8}{:>6}{:>6}{:>7}{:>10}",
        "kind", "sort", "states", "letters", "least", "hyper", "kernel", "agreement"
    )?;
    match length {
        Length::Short => println!(rt; "{:>12}", "sum")?,
        Length::Full => println!(rt;
            "{:>9}{:>8}{:>10}{:>10}{:>9}{:>9}{:>9}{:>10}{:>10}",
            "pass us", "copy", "push", "classes", "kernel", "almost", "redirect", "whole", "ms"
        )?,
    }
    Ok(())
}

fn print_times(rt: &HostRuntime, measured: &Measured) -> anyhow::Result<()> {
    let pass = measured.pass;
    let [copy, push, classes, kernel, almost, redirect] = measured
        .steps
        .map(|time| time.div_duration_f64(pass));
    let whole = measured.whole.div_duration_f64(pass);
    let micros = pass.div_duration_f64(Duration::from_micros(1));
    let millis = measured.whole.div_duration_f64(Duration::from_millis(1));
    println!(rt;
        "{micros:>9.1}{copy:>8.1}{push:>10.1}{classes:>10.1}{kernel:>9.1}{almost:>9.1}{redirect:>9.1}{whole:>10.1}{millis:>10.2}"
    )?;
    Ok(())
}

// Measures a source and prints its line.
fn try_source<W: Coded, S: Source<W>>(
    rt: &HostRuntime,
    length: Length,
    sort: &str,
    source: &S,
) -> anyhow::Result<()> {
    let measured = measure(source, rt, length.runs(), rt.alloc())?;
    let report = measured.report;
    print!(rt;
        "{:<11}{sort:<7}{:>6}{:>8}{:>6}{:>6}{:>7}{:>10}",
        kind_name::<W>(),
        measured.states,
        measured.letters,
        report.least,
        report.hyper,
        report.kernel,
        report.agreement
    )?;
    match length {
        Length::Short => println!(rt; "{:>12}", measured.sum)?,
        Length::Full => print_times(rt, &measured)?,
    }
    Ok(())
}

// Tries tables of each sort.
fn try_kind<W: Coded>(rt: &HostRuntime, length: Length) -> anyhow::Result<()> {
    for (states, letters) in length.sizes().iter() {
        let ring = Ring::<W>::new(*states, *letters, element(Purpose::Weight, 0, 0))?;
        try_source(rt, length, "ring", &ring)?;
    }
    for sort in SORTS {
        for (states, letters) in length.sizes().iter() {
            let plan = Plan {
                sort,
                states: *states,
            };
            let memories = Memories::<W>::planned(plan, *letters, rt.alloc())?;
            let sheet = memories.sheet(plan.drawn(), *letters)?;
            try_source(rt, length, sort.name(), &sheet)?;
        }
    }
    Ok(())
}

// The first argument tells how much is run.
fn read_length(rt: &HostRuntime) -> anyhow::Result<Length> {
    match env::args(rt)?.nth(1) {
        Some(word) if word.as_str() == "full" => Ok(Length::Full),
        Some(word) if word.as_str() != "small" => bail!("no such run: {word}"),
        _ => Ok(Length::Short),
    }
}

fn run(rt: &HostRuntime) -> anyhow::Result<()> {
    let length = read_length(rt)?;
    print_head(rt, length)?;
    try_kind::<Check>(rt, length)?;
    try_kind::<Wheel>(rt, length)?;
    try_kind::<BeamWheel>(rt, length)?;
    Ok(())
}

fn main(rt: HostRuntime) -> anyhow::Result<()> {
    run(&rt)
}
