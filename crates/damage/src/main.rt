#![tactic(auto)]

// Draws draft files, damages most of them, and compares the text that the library writes for each with the text of a second reading. The
// arguments are how many files, and the number of the first.
mod draft;
mod field;
mod harm;
mod kind;
mod listing;
mod reading;
mod tally;
mod trial;

use anyhow::{Context, bail};
use harm::DAMAGES;
use std::env;
use tally::{NUMBERS, Row, Tally};
use trial::{MEMORY, trial};

fn print_row(rt: &HostRuntime, name: &str, row: Row) -> anyhow::Result<()> {
    let files = row.files();
    print!(rt; "{name:<34}{files:>8}")?;
    for count in row.counts() {
        print!(rt; "{count:>8}")?;
    }
    println!(rt; "")?;
    Ok(())
}

fn print_heading(rt: &HostRuntime) -> anyhow::Result<()> {
    print!(rt; "{:<34}{:>8}", "", "files")?;
    for number in NUMBERS {
        let heading = match number {
            0 => String::from_str(rt.alloc(), "listed")?,
            _ => format!(in rt.alloc(); "no. {number}")?,
        };
        print!(rt; "{heading:>8}")?;
    }
    println!(rt; "")?;
    Ok(())
}

// Prints the counts.
fn print_counts(rt: &HostRuntime, tally: &Tally) -> anyhow::Result<()> {
    print_heading(rt)?;
    print_row(rt, "all", tally.all)?;
    print_row(rt, "plain", tally.plain)?;
    print_row(rt, "check", tally.check)?;
    print_row(rt, "wheel", tally.wheel)?;
    print_row(rt, "beam wheel", tally.beam_wheel)?;
    print_row(rt, "undamaged", tally.undamaged)?;
    for ((_, name), row) in DAMAGES.iter().zip(tally.damages) {
        print_row(rt, name, row)?;
    }
    let smaller = tally.smaller;
    let short = tally.short;
    println!(rt; "hyper tables smaller than the least one: {smaller}")?;
    println!(rt; "memories too short for a text: {short}")?;
    Ok(())
}

// The arguments as numbers: how many files, and the number of the first.
fn arguments(rt: &HostRuntime) -> anyhow::Result<(u32, u32)> {
    let mut numbers = [4000u32, 0];
    for (number, text) in numbers.iter_mut().zip(env::args(rt)?.skip(1)) {
        *number = text
            .as_str()
            .parse::<u32>()
            .context(format_args!("reading {text:?}"))?;
    }
    let [count, first] = numbers;
    Ok((count, first))
}

fn run(rt: &HostRuntime) -> anyhow::Result<()> {
    let (count, first) = arguments(rt)?;
    let mut memory = vec![in rt.alloc(); 0u8; usize::from(MEMORY)]?;
    let mut tally = Tally::new();
    for number in first..first.saturating_add(count) {
        if let Some(difference) = trial(number, &mut memory, &mut tally, rt.alloc())? {
            println!(rt; "file {number} differs: {difference}")?;
            bail!("a difference");
        }
    }
    print_counts(rt, &tally)?;
    println!(rt; "no difference in {count} files")?;
    Ok(())
}

fn main(rt: HostRuntime) -> anyhow::Result<()> {
    run(&rt)
}
