#![tactic(auto)]

// Draws the worked drafts, compiles them, and prints what they come to. The crate `worked` has most of this proved over the definitions,
// without running code; here the public calls compute it.
//
// For each draft come the counts, the least table and the hyper table. `start Q C` and `arc Q A R C` are as in a listing: the state that
// the table starts in, and an arc from state Q by letter A to state R, each with the code of its weight.
mod calls;
mod compiled;
mod list;
mod memories;
mod print;

use calls::{fork, one_state, round, spin};
use compiled::Compiled;
use drafts::write_draft;
use list::{list_of, taken};
use listings::hyper_listing;
use memories::Memories;
use print::{print_compiled, print_words};
use sources::{Both, Ring};
use std::io::Write;
use tables::{Call, Source};
use weights::{BeamWheel, Check, Coded, Refusal, Wheel};

// Compiles a source, and prints what it comes to and what each word weighs.
fn try_source<W: Coded, S: Source<W>>(
    rt: &HostRuntime,
    source: &S,
    words: &[&[u8]],
) -> anyhow::Result<()> {
    let compiled = Compiled::of(source, rt.alloc())?;
    print_compiled(rt, source.states(), &compiled)?;
    print_words(rt, source, &compiled.hyper_table(), words)?;
    println!(rt; "")?;
    Ok(())
}

// Makes calls on a new book, closes it, and tries its sheet.
fn try_draft<W: Coded>(
    rt: &HostRuntime,
    title: &str,
    calls: &[Call<u16>],
    words: &[&[u8]],
) -> anyhow::Result<()> {
    println!(rt; "{title}")?;
    let mut list = list_of::<W>(calls, rt.alloc())?;
    let mut memories = Memories::for_list(&list, rt.alloc())?;
    let sheet = memories.draw(&mut list);
    println!(rt; "  calls {}, taken {}", list.len(), taken(&list))?;
    try_source(rt, &sheet, words)
}

fn try_new_book(rt: &HostRuntime) -> anyhow::Result<()> {
    let title = "new book, check: it is closed at once";
    try_draft::<Check>(rt, title, &[], &[])
}

fn try_one_state(rt: &HostRuntime) -> anyhow::Result<()> {
    let title = "one state, check: it is final, and has no arc";
    try_draft::<Check>(rt, title, &one_state(), &[])
}

fn try_merging(rt: &HostRuntime) -> anyhow::Result<()> {
    let title = "merging, check: state 2 of a fork merges into state 1, with factor 5";
    try_draft::<Check>(rt, title, &fork(10), &[&[0, 1], &[1, 0], &[1]])
}

fn try_keeping(rt: &HostRuntime) -> anyhow::Result<()> {
    let title = "keeping, check: with 11 on one arc, the fork keeps all its states";
    try_draft::<Check>(rt, title, &fork(11), &[])
}

fn try_spinning(rt: &HostRuntime) -> anyhow::Result<()> {
    let title = "spinning, wheel: state 0 leads to itself, so that all states are kernel and kept";
    try_draft::<Wheel>(rt, title, &spin(), &[])
}

fn try_ring(rt: &HostRuntime) -> anyhow::Result<()> {
    println!(rt; "ring, wheel: three states and one letter, with weight 1")?;
    try_source(rt, &Ring::new(3, 1, Wheel(1))?, &[])
}

fn try_both(rt: &HostRuntime) -> anyhow::Result<()> {
    println!(rt; "both, wheel: rings of two and of three states side by side, with weight 1")?;
    let both = Both::new(Ring::new(2, 1, Wheel(1))?, Ring::new(3, 1, Wheel(1))?)?;
    try_source(rt, &both, &[])
}

fn try_wheels(rt: &HostRuntime) -> anyhow::Result<()> {
    let title = "wheel: 360 and 360 places come round to 0, so that states 1 and 2 are one class";
    try_draft::<Wheel>(rt, title, &round(), &[])?;
    let title = "beam wheel: 360 and 360 places are 720, so that no two states are one class";
    try_draft::<BeamWheel>(rt, title, &round(), &[])
}

// Writes what the merging draft draws, without the off state, as a draft file, and prints its size and its listing.
fn try_file(rt: &HostRuntime) -> anyhow::Result<()> {
    let mut list = list_of::<Check>(&fork(10), rt.alloc())?;
    let mut memories = Memories::for_list(&list, rt.alloc())?;
    let _ = memories.draw(&mut list);
    let mut file = vec![in rt.alloc(); 0u8; 16_384]?;
    let size = write_draft(&memories.table(4, 2), &mut file)?;
    file.truncate(size);
    println!(rt; "file of the merging draft: {size} bytes, listed as")?;
    let mut text = vec![in rt.alloc(); 0u8; 32_768]?;
    let length = hyper_listing(&file, &mut text)?;
    rt.stdout().write_all(&text[..length])?;
    println!(rt; "")?;
    Ok(())
}

// The code of the product of two elements that are given by their codes.
fn product<W: Coded>(left: u16, right: u16) -> Result<u16, Refusal> {
    let left = W::from_code(left)?;
    Ok(left.times(W::from_code(right)?).code())
}

fn try_products(rt: &HostRuntime) -> anyhow::Result<()> {
    println!(rt; "check: 256 times 256 is {}", product::<Check>(256, 256)?)?;
    println!(rt; "wheel: 719 plus 1 is {}", product::<Wheel>(719, 1)?)?;
    println!(rt;
        "beam wheel: 719 plus 1 is {}",
        product::<BeamWheel>(719, 1)?
    )?;
    println!(rt;
        "beam wheel: 1439 plus 1 is {}",
        product::<BeamWheel>(1439, 1)?
    )?;
    Ok(())
}

fn run(rt: &HostRuntime) -> anyhow::Result<()> {
    try_new_book(rt)?;
    try_one_state(rt)?;
    try_merging(rt)?;
    try_keeping(rt)?;
    try_spinning(rt)?;
    try_ring(rt)?;
    try_both(rt)?;
    try_wheels(rt)?;
    try_file(rt)?;
    try_products(rt)
}

fn main(rt: HostRuntime) -> anyhow::Result<()> {
    run(&rt)
}
