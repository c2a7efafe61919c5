#![tactic(auto)]

// Reads a draft file from standard input and weighs the words that its arguments name, letters set apart by spaces.
mod words;

use drafts::{FileKind, read_draft};
use std::env;
use std::io::Read;
use tables::{Book, Sheet, Source, weigh};
use weights::{BeamWheel, Check, Coded, Plain, Weight, Wheel};
use words::letters_of;

// The memories of the book.
const PLACES: usize = 1017;

const MARKS: usize = 127;

// Prints what a word weighs, or why it is none.
fn print_word<W: Coded>(rt: &HostRuntime, sheet: &Sheet<'_, W>, text: &str) -> anyhow::Result<()> {
    let Some(word) = letters_of(rt.alloc(), text)? else {
        println!(rt; "word \"{text}\": not a list of bytes")?;
        return Ok(());
    };
    match weigh(sheet, &word) {
        Ok(Some(weight)) => {
            let code = weight.code();
            println!(rt; "word \"{text}\": {code}")?;
        }
        Ok(None) => println!(rt; "word \"{text}\": none")?,
        Err(refusal) => println!(rt; "word \"{text}\": refused {refusal}")?,
    }
    Ok(())
}

// Builds the book that the file lists, and prints what it holds and, unless the file is refused, what each word weighs.
fn build<W: Coded>(rt: &HostRuntime, kind: FileKind, bytes: &[u8]) -> anyhow::Result<()> {
    let mut targets = vec![in rt.alloc(); 0u16; PLACES]?;
    let mut weights = vec![in rt.alloc(); W::one(); PLACES]?;
    let mut marks = vec![in rt.alloc(); 0u8; MARKS]?;
    let mut book = Book::open(&mut targets, &mut weights, &mut marks);
    let read = read_draft(bytes, &mut book);
    let sheet = book.close();
    println!(rt; "kind {kind}")?;
    if let Err(fault) = read {
        println!(rt; "refused: {fault}")?;
    }
    let letters = sheet.letters();
    let states = sheet.states() - 1;
    println!(rt; "letters {letters}")?;
    println!(rt; "states {states} and the off state")?;
    if read.is_ok() {
        for text in env::args(rt)?.skip(1) {
            print_word(rt, &sheet, text.as_str())?;
        }
    }
    Ok(())
}

fn run(rt: &HostRuntime) -> anyhow::Result<()> {
    let mut bytes = Vec::new(rt.alloc());
    rt.stdin().read_to_end(&mut bytes)?;
    let kind = FileKind::of(&bytes);
    match kind {
        FileKind::Plain => build::<Plain>(rt, kind, &bytes),
        FileKind::Check => build::<Check>(rt, kind, &bytes),
        FileKind::Wheel => build::<Wheel>(rt, kind, &bytes),
        FileKind::BeamWheel => build::<BeamWheel>(rt, kind, &bytes),
    }
}

fn main(rt: HostRuntime) -> anyhow::Result<()> {
    run(&rt)
}
