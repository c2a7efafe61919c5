use crate::compare::{Difference, Part, answer_difference, first_difference, unmade_difference};
use crate::draft::{Draft, any_calls};
use crate::element::Element;
use crate::list::{List, drawn, drawn_in_parts, size_of};
use crate::room::{MEMORIES, Room};
use crate::sketch::Sketch;
use crate::tally::{Count, Tally};
use random::Random;
use reference::{Compiled, compile_by_definition};
use sources::{Both, Fold, Ring};
use std::alloc::{AllocError, Global};
use tables::{Sheet, Source};
use weights::Refusal;

// Draws a table and has both make the tables of it. The answer is the first difference.
pub(crate) fn trial<W: Element>(
    random: &mut Random,
    is_crowded: bool,
    tally: &mut Tally,
    alloc: Global,
) -> anyhow::Result<Option<Difference>> {
    let fewest = if random.chance(15) { 1 } else { 2 };
    let letters = random.letter(3).saturating_add(fewest);
    let mut list = drawn_list::<W>(random, is_crowded, letters, alloc)?;
    if random.chance(5) {
        list.short = Some(u64::from(random.between(0, 3)));
    }
    let mut memories = list.memories(alloc)?;
    let sketch = Sketch::of(&list.calls, &memories, alloc)?;
    note(tally, &sketch);
    let mut made = list.unmade(alloc)?;
    let size = sketch.size_difference(size_of(&memories, &made));
    let sheet = drawn(&mut memories, &mut made);
    let difference = size
        .or(sketch.answers_difference(&made))
        .or(sketch.table_difference(&sheet, alloc)?)
        .or(parts_difference(&list, &sketch, alloc)?);
    if difference.is_some() {
        return Ok(difference);
    }
    let wanted = compile_by_definition(&sheet, alloc)?;
    let memory = tally.get(Count::Tables) % MEMORIES;
    let difference = whole_difference(&list, &sketch, &wanted, memory, alloc)?;
    if difference.is_some() {
        return Ok(difference);
    }
    pile(random, sheet, &wanted, tally, alloc)
}

fn drawn_list<W: Element>(
    random: &mut Random,
    is_crowded: bool,
    letters: u8,
    alloc: Global,
) -> Result<List<W>, AllocError> {
    let draft = match random.between(0, 40) {
        _ if is_crowded => Draft::crowded(random, alloc)?,
        0 => Draft::empty(letters, alloc),
        1 | 2 => {
            return Ok(List {
                calls: any_calls(random, alloc)?,
                room: random.between(0, 9),
                letters: 2,
                short: None,
            });
        },
        3..=6 => Draft::loose(random, letters, 12, alloc)?,
        7 | 8 => Draft::loose(random, letters, 40, alloc)?,
        _ => Draft::layered(random, letters, alloc)?,
    };
    let states = draft.states();
    let room = if random.chance(5) {
        random.between(0, states)
    } else {
        states
    };
    Ok(List {
        calls: draft.calls(random, alloc)?,
        room,
        letters: draft.letters(),
        short: None,
    })
}

fn note<W: Element>(tally: &mut Tally, sketch: &Sketch<W>) {
    let states = sketch.states();
    tally.add_if(Count::Refused, sketch.refused() > 0);
    note_calls(tally, sketch);
    tally.add_if(Count::NoStates, states == 0);
    tally.add_if(Count::FullBooks, states == 4095);
    tally.add_if(Count::ShortMemories, sketch.is_full() && states < 4095);
}

fn note_calls<W: Element>(tally: &mut Tally, sketch: &Sketch<W>) {
    tally.add(Count::Calls, sketch.calls());
    tally.add(Count::RefusedCalls, sketch.refused());
    tally.add(Count::Redrawn, sketch.redrawn);
    tally.add(Count::RedrawnOtherwise, sketch.redrawn_otherwise);
}

// The first difference between a list that is drawn in two parts and its sketch.
fn parts_difference<W: Element>(
    list: &List<W>,
    sketch: &Sketch<W>,
    alloc: Global,
) -> Result<Option<Difference>, AllocError> {
    let mut memories = list.memories(alloc)?;
    let mut made = list.unmade(alloc)?;
    let sheet = drawn_in_parts(&mut memories, &mut made);
    Ok(
        sketch
            .answers_difference(&made)
            .or(sketch.table_difference(&sheet, alloc)?),
    )
}

// Has one call draw the list and make the tables of it, in memories of the size that is told beforehand, and compares its answers and
// what it makes; and has it refuse while one of these memories is a place too short.
fn whole_difference<W: Element>(
    list: &List<W>,
    sketch: &Sketch<W>,
    wanted: &Compiled<W>,
    memory: u64,
    alloc: Global,
) -> anyhow::Result<Option<Difference>> {
    let mut made = list.unmade(alloc)?;
    let book = list.memories(alloc)?;
    let size = size_of(&book, &made);
    let states = size.states.saturating_add(1);
    let mut short = Room::new(states, size.letters, alloc)?;
    short.shorten(memory);
    let answer = short.draw_and_compile(&mut made, list.memories(alloc)?);
    let refused = short_difference(answer.err()).or(unmade_difference(&made));
    let room = Room::new(states, size.letters, alloc)?;
    let results = room.draw_and_compile(&mut made, book)?;
    Ok(
        refused
            .or(sketch.answers_difference(&made))
            .or(first_difference(&results, wanted, alloc)?),
    )
}

// Tries the sheet, of which the wanted tables are given, or a pile over it.
fn pile<W: Element>(
    random: &mut Random,
    sheet: Sheet<'_, W>,
    wanted: &Compiled<W>,
    tally: &mut Tally,
    alloc: Global,
) -> anyhow::Result<Option<Difference>> {
    // a pile has up to five times as many states
    if sheet.states() > 24 {
        return compared(&sheet, wanted, tally, alloc);
    }
    match random.between(0, 12) {
        0 => {
            tally.add(Count::Rings, 1);
            let states = random.between(1, 24);
            tried(&ring::<W>(random, states, sheet.letters())?, tally, alloc)
        },
        1 => {
            tally.add(Count::Folds, 1);
            tried(&folded(random, sheet, alloc)?, tally, alloc)
        },
        2 => {
            tally.add(Count::Boths, 1);
            let ring = small_ring::<W>(random, sheet.letters())?;
            tried(&Both::new::<W>(sheet, ring)?, tally, alloc)
        },
        3 => {
            tally.add(Count::Piles, 1);
            let ring = small_ring::<W>(random, sheet.letters())?;
            let both = Both::new::<W>(sheet, ring)?;
            tried(&folded(random, both, alloc)?, tally, alloc)
        },
        4 => {
            tally.add(Count::Piles, 1);
            let fold = folded(random, sheet, alloc)?;
            let ring = small_ring::<W>(random, Source::<W>::letters(&fold))?;
            tried(&Both::new::<W>(ring, fold)?, tally, alloc)
        },
        5 => {
            tally.add(Count::Boths, 1);
            beside_another(random, sheet, tally, alloc)
        },
        _ => compared(&sheet, wanted, tally, alloc),
    }
}

// Tries the sheet side by side with another, of a few states.
fn beside_another<W: Element>(
    random: &mut Random,
    sheet: Sheet<'_, W>,
    tally: &mut Tally,
    alloc: Global,
) -> anyhow::Result<Option<Difference>> {
    let draft = Draft::loose(random, sheet.letters(), 4, alloc)?;
    let list = List {
        calls: draft.calls(random, alloc)?,
        room: draft.states(),
        letters: sheet.letters(),
        short: None,
    };
    let mut memories = list.memories(alloc)?;
    let sketch = Sketch::of(&list.calls, &memories, alloc)?;
    note_calls(tally, &sketch);
    let mut made = list.unmade(alloc)?;
    let other = drawn(&mut memories, &mut made);
    let difference = sketch
        .answers_difference(&made)
        .or(sketch.table_difference(&other, alloc)?);
    if difference.is_some() {
        return Ok(difference);
    }
    tried(&Both::new::<W>(other, sheet)?, tally, alloc)
}

fn ring<W: Element>(random: &mut Random, states: u16, letters: u8) -> anyhow::Result<Ring<W>> {
    Ok(Ring::new(states, letters, W::drawn(random))?)
}

fn small_ring<W: Element>(random: &mut Random, letters: u8) -> anyhow::Result<Ring<W>> {
    let states = random.between(2, 4);
    ring(random, states, letters)
}

// A fold of the source over a list of its letters, mostly a short one.
fn folded<W: Element, S: Source<W> + Drop>(
    random: &mut Random,
    source: S,
    alloc: Global,
) -> anyhow::Result<Fold<S>> {
    let most = if random.chance(5) { 64 } else { 4 };
    let mut letters = Vec::new(alloc);
    for _ in 0..random.between(0, most).saturating_add(1) {
        letters.push(random.letter(source.letters()))?;
    }
    Ok(Fold::new::<W>(source, &letters)?)
}

// Has both make the tables of a source, and compares them.
fn tried<W: Element, S: Source<W>>(
    source: &S,
    tally: &mut Tally,
    alloc: Global,
) -> anyhow::Result<Option<Difference>> {
    let wanted = compile_by_definition(source, alloc)?;
    compared(source, &wanted, tally, alloc)
}

// Has the compiler make the tables of a source, and compares them with those that are wanted; and has it refuse while one of its
// memories is a place too short.
fn compared<W: Element, S: Source<W>>(
    source: &S,
    wanted: &Compiled<W>,
    tally: &mut Tally,
    alloc: Global,
) -> anyhow::Result<Option<Difference>> {
    let memory = tally.get(Count::Tables) % MEMORIES;
    tally.add_table(source.states(), wanted);
    let mut short = Room::new(source.states(), source.letters(), alloc)?;
    short.shorten(memory);
    let refused = short_difference(short.compile(source).err());
    let room = Room::new(source.states(), source.letters(), alloc)?;
    let results = room.compile(source)?;
    Ok(refused.or(first_difference(&results, wanted, alloc)?))
}

// The difference between the answer with a memory too short and the one that is wanted.
fn short_difference(answer: Option<Refusal>) -> Option<Difference> {
    answer_difference(Part::Answer, 0, answer, Some(Refusal::ShortMemory))
}
