use crate::draft::Plan;
use crate::harm::{damaged_file, drawn_damages};
use crate::listing::Wanted;
use crate::reading::kind_of;
use crate::tally::Tally;
use anyhow::bail;
use listings::hyper_listing;
use random::Random;
use std::alloc::{AllocError, Global};
use std::fmt;
use weights::Refusal;

// The shortest memory that is taken for a text.
const SHORTEST: u16 = 32_768;

// The length of the memory of which they are lent.
pub(crate) const MEMORY: u16 = 33_000;

// Where the call and the second reading first differ.
#[derive(Drop)]
pub(crate) enum Difference {
    // refused with a number, or taken: 0
    Answer {
        listed: u8,
        read: u8,
    },
    // a place of the memory that is not to be written
    Written {
        place: usize,
    },
    Line {
        number: usize,
        listed: String,
        read: String,
    },
}

impl fmt::Display for Difference {
    fn fmt<W: fmt::Write>(&self, f: &mut fmt::Formatter<W>) -> fmt::Result {
        match self {
            Difference::Answer { listed, read } => {
                write!(f, "answer {listed}, and {read} by the second reading")
            },
            Difference::Written { place } => write!(f, "place {place} of the memory is written"),
            Difference::Line {
                number,
                listed,
                read,
            } => write!(
                f,
                "line {number}: \"{listed}\", and \"{read}\" by the second reading"
            ),
        }
    }
}

// Draws a file, damages it, and compares its text with that of the second reading. The number fixes all of it.
pub(crate) fn trial(
    number: u32,
    memory: &mut [u8],
    tally: &mut Tally,
    alloc: Global,
) -> anyhow::Result<Option<Difference>> {
    let mut random = Random::new(u64::from(number));
    let plan = Plan::drawn(&mut random, number);
    let damages = drawn_damages(&mut random, alloc)?;
    let file = damaged_file(&mut random, plan, &damages, alloc)?;
    let filler = random.byte();
    memory.fill(filler);
    if random.chance(10) {
        let length = if random.chance(50) {
            SHORTEST.saturating_sub(1)
        } else {
            random.between(0, SHORTEST)
        };
        tally.short = tally.short.saturating_add(1);
        let difference = short_difference(&file, usize::from(length), memory, filler)?;
        if difference.is_some() {
            return Ok(difference);
        }
    }
    let length = if random.chance(80) {
        usize::from(SHORTEST)
    } else {
        usize::from(random.between(SHORTEST, MEMORY))
    };
    let wanted = Wanted::of(&file, alloc)?;
    tally.add(kind_of(&file), &damages, wanted.number)?;
    if wanted.is_smaller {
        tally.smaller = tally.smaller.saturating_add(1);
    }
    text_difference(&file, length, memory, filler, wanted.text.as_bytes(), alloc)
}

// Lists a file in so many bytes of the memory.
fn listed(file: &[u8], length: usize, memory: &mut [u8]) -> anyhow::Result<Result<usize, Refusal>> {
    match memory.get_mut(..length) {
        Some(out) => Ok(hyper_listing(file, out)),
        None => bail!("no memory of {length} bytes"),
    }
}

// A memory that is too short is refused with 6 and not written.
fn short_difference(
    file: &[u8],
    length: usize,
    memory: &mut [u8],
    filler: u8,
) -> anyhow::Result<Option<Difference>> {
    let number = match listed(file, length, memory)? {
        Ok(_) => 0,
        Err(refusal) => refusal.number(),
    };
    if number != 6 {
        return Ok(Some(Difference::Answer {
            listed: number,
            read: 6,
        }));
    }
    Ok(written_difference(memory, 0, filler))
}

// The memory is to hold the text and then what it held before.
fn text_difference(
    file: &[u8],
    length: usize,
    memory: &mut [u8],
    filler: u8,
    text: &[u8],
    alloc: Global,
) -> anyhow::Result<Option<Difference>> {
    let size = match listed(file, length, memory)? {
        Ok(size) => size,
        Err(refusal) => {
            return Ok(Some(Difference::Answer {
                listed: refusal.number(),
                read: 0,
            }));
        },
    };
    let Some(written) = memory.get(..size) else {
        bail!("a text of {size} bytes");
    };
    if written != text {
        return Ok(Some(line_difference(written, text, alloc)?));
    }
    Ok(written_difference(memory, size, filler))
}

// The first place from one on that is written.
fn written_difference(memory: &[u8], from: usize, filler: u8) -> Option<Difference> {
    let rest = memory.get(from..)?;
    let place = rest.iter().position(|byte| *byte != filler)?;
    Some(Difference::Written {
        place: from.saturating_add(place),
    })
}

// The first line in which two texts differ.
fn line_difference(listed: &[u8], read: &[u8], alloc: Global) -> Result<Difference, AllocError> {
    let mut number = 0usize;
    for (left, right) in listed.iter().zip(read) {
        if *left != *right {
            break;
        }
        if *left == b'\n' {
            number = number.saturating_add(1);
        }
    }
    Ok(Difference::Line {
        number,
        listed: line(listed, number, alloc)?,
        read: line(read, number, alloc)?,
    })
}

// The line of a text with a number.
fn line(text: &[u8], number: usize, alloc: Global) -> Result<String, AllocError> {
    let line = text.split(|byte| *byte == b'\n').nth(number);
    String::from_utf8_lossy(alloc, line.unwrap_or(&[]))
}
