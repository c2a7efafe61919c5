use crate::compiled::Compiled;
use std::fmt;
use tables::{Source, weigh};
use weights::{Coded, Refusal};

fn print_start<W: Coded, S: Source<W>>(rt: &HostRuntime, table: &S) -> anyhow::Result<()> {
    let state = table.start();
    let code = table.start_weight().code();
    println!(rt; "    start {state} {code}")?;
    Ok(())
}

// Prints the arcs of so many states.
fn print_arcs<W: Coded, S: Source<W>>(
    rt: &HostRuntime,
    table: &S,
    states: u16,
) -> anyhow::Result<()> {
    for state in 0..states {
        for letter in 0..table.letters() {
            let target = table.target(state, letter);
            let weight = table.weight(state, letter);
            if let (Some(target), Some(weight)) = (target, weight) {
                println!(rt; "    arc {state} {letter} {target} {}", weight.code())?;
            }
        }
    }
    Ok(())
}

// Prints the least table, with the mark, the representative and the factor of each state.
fn print_least<W: Coded>(rt: &HostRuntime, compiled: &Compiled<W>) -> anyhow::Result<()> {
    let table = compiled.least_table();
    let states = compiled.report.least;
    println!(rt; "  least table")?;
    print_start(rt, &table)?;
    let marks = compiled.least.marks.iter().take(usize::from(states));
    let merges = compiled.representatives.iter().zip(&compiled.factors);
    for (state, (mark, (representative, factor))) in marks.zip(merges).enumerate() {
        let factor = factor.code();
        println!(rt;
            "    state {state} mark {mark}, representative {representative}, factor {factor}"
        )?;
    }
    print_arcs(rt, &table, states)
}

// Prints the hyper table, with the mark of each state.
fn print_hyper<W: Coded>(rt: &HostRuntime, compiled: &Compiled<W>) -> anyhow::Result<()> {
    let table = compiled.hyper_table();
    let states = compiled.report.hyper;
    println!(rt; "  hyper table")?;
    print_start(rt, &table)?;
    let marks = compiled.hyper.marks.iter().take(usize::from(states));
    for (state, mark) in marks.enumerate() {
        println!(rt; "    state {state} mark {mark}")?;
    }
    print_arcs(rt, &table, states)
}

// Prints the counts and the tables that a source of so many states was compiled to.
pub(crate) fn print_compiled<W: Coded>(
    rt: &HostRuntime,
    states: u16,
    compiled: &Compiled<W>,
) -> anyhow::Result<()> {
    let report = compiled.report;
    println!(rt;
        "  source {states}, least {}, hyper {}, kernel {}, agree {}",
        report.least, report.hyper, report.kernel, report.agreement
    )?;
    print_least(rt, compiled)?;
    print_hyper(rt, compiled)
}

// The code of what a word weighs, if it has a weight.
#[derive(Clone, Copy)]
struct WordCode(Option<u16>);

impl fmt::Display for WordCode {
    fn fmt<W: fmt::Write>(&self, f: &mut fmt::Formatter<W>) -> fmt::Result {
        match self.0 {
            Some(code) => write!(f, "{code}"),
            None => f.write_str("none"),
        }
    }
}

fn word_code<W: Coded, S: Source<W>>(source: &S, word: &[u8]) -> Result<WordCode, Refusal> {
    Ok(WordCode(weigh(source, word)?.map(|weight| weight.code())))
}

// Prints what each word weighs in the source and in its hyper table.
pub(crate) fn print_words<W: Coded, S: Source<W>, H: Source<W>>(
    rt: &HostRuntime,
    source: &S,
    hyper: &H,
    words: &[&[u8]],
) -> anyhow::Result<()> {
    for word in words {
        print!(rt; "  word")?;
        for letter in word.iter() {
            print!(rt; " {letter}")?;
        }
        let in_source = word_code(source, word)?;
        let in_hyper = word_code(hyper, word)?;
        println!(rt; ": source {in_source}, hyper {in_hyper}")?;
    }
    Ok(())
}
