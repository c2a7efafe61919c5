#![tactic(auto)]

// Draws tables that look random, has the compiler and the reference make the least and the hyper table of each, and compares them; and
// draws each list of calls by each call that takes one, and compares answers and tables with another reading of the rules. The arguments
// are how many tables, and the number of the first.
mod compare;
mod draft;
mod element;
mod list;
mod memories;
mod room;
mod sketch;
mod tally;
mod trial;

use anyhow::{Context, bail};
use compare::Difference;
use random::Random;
use std::env;
use tally::{COUNTS, Tally};
use trial::trial;
use weights::{BeamWheel, Check, Pair, Plain, Wheel};

// What was counted, for each kind.
#[derive(Clone, Copy)]
struct Tallies {
    plain: Tally,
    check: Tally,
    wheel: Tally,
    beam_wheel: Tally,
    pair: Tally,
}

// Draws and tries one table. Its number gives the kind and all that is drawn.
fn try_table(
    rt: &HostRuntime,
    number: u32,
    tallies: &mut Tallies,
) -> anyhow::Result<Option<Difference>> {
    let mut random = Random::new(u64::from(number));
    // a full book is slow to try
    let is_crowded = number % 401 == 400;
    match number % 5 {
        0 => trial::<Plain>(&mut random, is_crowded, &mut tallies.plain, rt.alloc()),
        1 => trial::<Check>(&mut random, is_crowded, &mut tallies.check, rt.alloc()),
        2 => trial::<Wheel>(&mut random, is_crowded, &mut tallies.wheel, rt.alloc()),
        3 => trial::<BeamWheel>(&mut random, is_crowded, &mut tallies.beam_wheel, rt.alloc()),
        _ => trial::<Pair<Check, Wheel>>(&mut random, is_crowded, &mut tallies.pair, rt.alloc()),
    }
}

// Prints the counts, for the kinds in a row.
fn print_counts(rt: &HostRuntime, tallies: &Tallies) -> anyhow::Result<()> {
    println!(rt;
        "{:<44}{:>8}{:>8}{:>8}{:>12}{:>8}",
        "", "plain", "check", "wheel", "beam wheel", "pair"
    )?;
    for (count, name) in COUNTS {
        let plain = tallies.plain.get(count);
        let check = tallies.check.get(count);
        let wheel = tallies.wheel.get(count);
        let beam_wheel = tallies.beam_wheel.get(count);
        let pair = tallies.pair.get(count);
        println!(rt; "{name:<44}{plain:>8}{check:>8}{wheel:>8}{beam_wheel:>12}{pair:>8}")?;
    }
    Ok(())
}

// The arguments as numbers: how many tables, and the number of the first.
fn arguments(rt: &HostRuntime) -> anyhow::Result<(u32, u32)> {
    let mut numbers = [4000u32, 0];
    for (number, text) in numbers.iter_mut().zip(env::args(rt)?.skip(1)) {
        *number = text
            .as_str()
            .parse::<u32>()
            .context(format_args!("reading {text:?}"))?;
    }
    let [count, first] = numbers;
    Ok((count, first))
}

fn run(rt: &HostRuntime) -> anyhow::Result<()> {
    let (count, first) = arguments(rt)?;
    let mut tallies = Tallies {
        plain: Tally::new(),
        check: Tally::new(),
        wheel: Tally::new(),
        beam_wheel: Tally::new(),
        pair: Tally::new(),
    };
    for number in first..first.saturating_add(count) {
        if let Some(difference) = try_table(rt, number, &mut tallies)? {
            println!(rt; "table {number} differs: {difference}")?;
            bail!("a difference");
        }
    }
    print_counts(rt, &tallies)?;
    println!(rt; "no difference in {count} tables")?;
    Ok(())
}

fn main(rt: HostRuntime) -> anyhow::Result<()> {
    run(&rt)
}
