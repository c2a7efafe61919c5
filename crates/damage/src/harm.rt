use crate::draft::{Plan, file_of};
use crate::field::Field;
use random::Random;
use std::alloc::{AllocError, Global};
use std::collections::BTreeSet;

// A kind of damage that is done to a file.
#[derive(Clone, Copy, PartialEq, Eq, Debug)]
pub(crate) enum Damage {
    // to the fields, before they are written
    Number,
    Doubled,
    LeftOut,
    Swapped,
    // to the bytes
    Kind,
    Bit,
    Byte,
    Inserted,
    Removed,
    Cut,
    Joined,
    Grown,
    Emptied,
}

// Each of them, with its name.
pub(crate) const DAMAGES: [(Damage, &str); 13] = [
    (Damage::Number, "numbers of a field changed"),
    (Damage::Doubled, "a field doubled"),
    (Damage::LeftOut, "a field left out"),
    (Damage::Swapped, "two fields swapped"),
    (Damage::Kind, "the kind byte changed or missing"),
    (Damage::Bit, "a bit flipped"),
    (Damage::Byte, "a byte changed"),
    (Damage::Inserted, "bytes inserted"),
    (Damage::Removed, "bytes removed"),
    (Damage::Cut, "cut off"),
    (Damage::Joined, "two files joined"),
    (Damage::Grown, "grown to 16383 bytes or more"),
    (Damage::Emptied, "emptied"),
];

impl Damage {
    fn drawn(random: &mut Random) -> Damage {
        match random.between(0, 100) {
            0..=20 => Damage::Number,
            21..=30 => Damage::Doubled,
            31..=38 => Damage::LeftOut,
            39..=46 => Damage::Swapped,
            47..=50 => Damage::Kind,
            51..=62 => Damage::Bit,
            63..=72 => Damage::Byte,
            73..=78 => Damage::Inserted,
            79..=84 => Damage::Removed,
            85..=90 => Damage::Cut,
            91..=94 => Damage::Joined,
            95..=98 => Damage::Grown,
            _ => Damage::Emptied,
        }
    }
}

// The damages that are done to a file, none to three, and some of them twice.
pub(crate) fn drawn_damages(random: &mut Random, alloc: Global) -> Result<Vec<Damage>, AllocError> {
    let count = match random.between(0, 10) {
        0..=2 => 0,
        3..=6 => 1,
        7 | 8 => 2,
        _ => 3,
    };
    let mut damages = Vec::new(alloc);
    for _ in 0..count {
        damages.push(Damage::drawn(random))?;
    }
    Ok(damages)
}

// A file with these damages.
pub(crate) fn damaged_file(
    random: &mut Random,
    plan: Plan,
    damages: &[Damage],
    alloc: Global,
) -> Result<Vec<u8>, AllocError> {
    let mut fields = plan.fields(random, alloc)?;
    for damage in damages.iter() {
        harm_fields(random, plan, *damage, &mut fields)?;
    }
    let mut file = file_of(&fields, alloc)?;
    for damage in damages.iter() {
        harm_bytes(random, plan, *damage, &mut file, alloc)?;
    }
    Ok(file)
}

// A place in so many.
fn place(random: &mut Random, count: usize) -> usize {
    let high = u16::try_from(count).unwrap_or(u16::MAX);
    usize::from(random.between(0, high))
}

fn harm_fields(
    random: &mut Random,
    plan: Plan,
    damage: Damage,
    fields: &mut Vec<Field>,
) -> Result<(), AllocError> {
    let at = if random.chance(15) {
        // mostly the last state
        usize::from(plan.states)
    } else {
        place(random, fields.len())
    };
    let other = place(random, fields.len());
    let Some(field) = fields.get(at).copied() else {
        return Ok(());
    };
    match damage {
        Damage::Number => {
            let mut changed = field;
            for _ in 0..random.between(1, 3) {
                changed = with_change(random, plan, changed);
            }
            if let Some(field) = fields.get_mut(at) {
                *field = changed;
            }
        },
        Damage::Doubled => {
            if other <= fields.len() {
                fields.insert(other, field)?;
            }
        },
        Damage::LeftOut => {
            if at < fields.len() {
                fields.remove(at);
            }
        },
        Damage::Swapped => {
            if at < fields.len() && other < fields.len() {
                fields.swap(at, other);
            }
        },
        _ => {},
    }
    Ok(())
}

// A number that mostly is about a bound.
fn near(random: &mut Random, bound: u16) -> u16 {
    match random.between(0, 8) {
        0 => random.between(0, u16::MAX),
        1 => u16::MAX,
        _ => bound.saturating_add(random.between(0, 4)).saturating_sub(2),
    }
}

fn near_byte(random: &mut Random, bound: u16) -> u8 {
    u8::try_from(near(random, bound)).unwrap_or(u8::MAX)
}

// The field with one of its numbers changed.
fn with_change(random: &mut Random, plan: Plan, field: Field) -> Field {
    let choice = random.between(0, 4);
    let bound = match random.between(0, 4) {
        0 => 0,
        1 => 257,
        2 => 720,
        _ => 1440,
    };
    match field {
        Field::Head { kind, letters } => match choice {
            0 | 1 => Field::Head {
                kind: near_byte(random, 3),
                letters,
            },
            2 => Field::Head {
                kind,
                letters: near_byte(random, 65),
            },
            _ => Field::Head {
                kind,
                letters: near_byte(random, u16::from(plan.letters)),
            },
        },
        Field::State { .. } => Field::State {
            mark: near_byte(random, 1),
        },
        Field::Arc {
            from,
            letter,
            to,
            code,
        } => match choice {
            0 => Field::Arc {
                from: near(random, plan.states),
                letter,
                to,
                code,
            },
            1 => Field::Arc {
                from,
                letter: near_byte(random, u16::from(plan.letters)),
                to,
                code,
            },
            2 => Field::Arc {
                from,
                letter,
                to: near(random, plan.states),
                code,
            },
            _ => Field::Arc {
                from,
                letter,
                to,
                code: near(random, bound),
            },
        },
        Field::Start { state, code } => match choice {
            0 | 1 => Field::Start {
                state: near(random, plan.states),
                code,
            },
            _ => Field::Start {
                state,
                code: near(random, bound),
            },
        },
    }
}

fn harm_bytes(
    random: &mut Random,
    plan: Plan,
    damage: Damage,
    file: &mut Vec<u8>,
    alloc: Global,
) -> Result<(), AllocError> {
    let at = place(random, file.len());
    let any = random.byte();
    match damage {
        Damage::Kind => {
            if random.chance(30) {
                file.truncate(usize::from(random.between(0, 4)));
            } else if let Some(byte) = file.get_mut(3) {
                *byte = random.letter(5);
            }
        },
        Damage::Bit => {
            let bits = if random.chance(50) { 2 } else { 8 };
            let bit = 1u8
                .checked_shl(u32::from(random.between(0, bits)))
                .unwrap_or(1);
            if let Some(byte) = file.get_mut(at) {
                *byte ^= bit;
            }
        },
        Damage::Byte => {
            let value = if random.chance(50) {
                random.letter(5)
            } else {
                any
            };
            if let Some(byte) = file.get_mut(at) {
                *byte = value;
            }
        },
        Damage::Inserted => {
            for _ in 0..random.between(1, 12) {
                let value = random.letter(5);
                if at <= file.len() {
                    file.insert(at, value)?;
                }
            }
        },
        Damage::Removed => {
            for _ in 0..random.between(1, 12) {
                if at < file.len() {
                    file.remove(at);
                }
            }
        },
        Damage::Cut => file.truncate(at),
        Damage::Joined => {
            let fields = plan.fields(random, alloc)?;
            let head = usize::from(random.chance(60));
            // mostly the states of the second come after those of the first; else it draws the arcs of the first again
            let by = if random.chance(60) { plan.states } else { 0 };
            for field in fields.iter().skip(head) {
                field.moved_on(by).add_to(file)?;
            }
        },
        Damage::Grown => grow(random, plan, file, alloc)?,
        Damage::Emptied => file.clear(),
        _ => {},
    }
    Ok(())
}

// The states and letters whose arcs the file has, as far as its fields are well formed.
fn arcs_in(file: &[u8], alloc: Global) -> Result<BTreeSet<(u16, u8)>, AllocError> {
    let mut arcs = BTreeSet::new(alloc);
    let mut offset = 0usize;
    // each round but the last reads a field
    for _ in 0..=file.len() {
        let Some(field) = Field::at(file, offset) else {
            break;
        };
        if let Some(place) = field.arc_place() {
            arcs.insert(place)?;
        }
        offset = offset.saturating_add(field.size());
    }
    Ok(arcs)
}

// The states and letters of the plan whose arcs the file lacks.
fn lacking_arcs(plan: Plan, file: &[u8], alloc: Global) -> Result<Vec<(u16, u8)>, AllocError> {
    let drawn = arcs_in(file, alloc)?;
    let mut lacking = Vec::new(alloc);
    for from in 0..plan.states {
        for letter in 0..plan.letters {
            if !drawn.contains(&(from, letter)) {
                lacking.push((from, letter))?;
            }
        }
    }
    Ok(lacking)
}

// Adds arcs that the file lacks, starts and some states, so many that the file has just so many bytes, unless it lacks but a few.
fn grow(
    random: &mut Random,
    plan: Plan,
    file: &mut Vec<u8>,
    alloc: Global,
) -> Result<(), AllocError> {
    let wanted = match random.between(0, 6) {
        0 => random.between(16_386, 20_000),
        1 => 16_383,
        2 => 16_385,
        _ => 16_384,
    };
    let more = usize::from(wanted).saturating_sub(file.len());
    let lacking = lacking_arcs(plan, file, alloc)?;
    // arcs have 10 bytes, states 4 and starts 7, and up to six states leave a multiple of 7
    let most = lacking.len().min(more.saturating_sub(24) / 10);
    let arcs = place(random, most.saturating_add(1));
    let rest = more.saturating_sub(arcs.saturating_mul(10));
    let states = if rest < 24 {
        0
    } else {
        rest.wrapping_mul(2) % 7
    };
    let starts = rest.saturating_sub(states.saturating_mul(4)) / 7;
    for (from, letter) in lacking.iter().take(arcs) {
        let arc = plan.any_arc(random, *from, *letter, plan.states);
        arc.add_to(file)?;
    }
    for _ in 0..states {
        let mark = u8::from(random.chance(50));
        Field::State { mark }.add_to(file)?;
    }
    for _ in 0..starts {
        plan.any_start(random, plan.states).add_to(file)?;
    }
    Ok(())
}
