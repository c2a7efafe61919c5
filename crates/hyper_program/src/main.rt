#![tactic(auto)]

// Reads a draft file from standard input and prints the listing of its hyper table, or why it is refused.
use listings::hyper_listing;
use std::io::{Read, Write};

// One byte more than a file may have, so that a longer one shows.
const LONGEST: u64 = 16_385;

// The memory that a listing is written into.
const TEXT: usize = 32_768;

fn run(rt: &HostRuntime) -> anyhow::Result<()> {
    let mut file = Vec::new(rt.alloc());
    rt.stdin().take(LONGEST).read_to_end(&mut file)?;
    let mut text = vec![in rt.alloc(); 0u8; TEXT]?;
    let length = hyper_listing(&file, &mut text)?;
    rt.stdout().write_all(&text[..length])?;
    Ok(())
}

fn main(rt: HostRuntime) -> anyhow::Result<()> {
    run(&rt)
}
