use crate::field::Field;
use crate::kind::Kind;
use std::alloc::{AllocError, Global};
use std::collections::BTreeMap;

// The longest file that is read.
const LONGEST: usize = 16_384;

// The room of the book.
const PLACES: usize = 1017;

const MARKS: usize = 127;

// Where an arc or the start leads, and the code of its weight.
#[derive(Clone, Copy)]
pub(crate) struct Step {
    pub(crate) to: u16,
    pub(crate) code: u16,
}

// What the fields of a file have drawn.
#[derive(Drop)]
pub(crate) struct Drawing {
    pub(crate) kind: Kind,
    pub(crate) letters: u8,
    // for each state whether it is final
    pub(crate) states: Vec<bool>,
    // by state and letter
    pub(crate) arcs: BTreeMap<(u16, u8), Step>,
    pub(crate) start: Option<Step>,
}

// The refusal of a file: its number, and the offset of the field at fault, or the longest that a file may be.
#[derive(Clone, Copy)]
pub(crate) struct Refused {
    pub(crate) number: u8,
    pub(crate) offset: usize,
}

#[derive(Drop)]
pub(crate) enum Reading {
    Drawn(Drawing),
    Refused(Refused),
}

// The kind of the book that a file is read into.
pub(crate) fn kind_of(bytes: &[u8]) -> Kind {
    let number = bytes.get(3).copied().unwrap_or(0);
    Kind::of_number(number).unwrap_or(Kind::Plain)
}

// Reads a file, field after field. This is written from docs/ alone, apart from the library, so that both would have to err alike.
pub(crate) fn read(bytes: &[u8], alloc: Global) -> Result<Reading, AllocError> {
    if bytes.len() > LONGEST {
        return Ok(Reading::Refused(Refused {
            number: 6,
            offset: LONGEST,
        }));
    }
    let mut drawing = Drawing {
        kind: kind_of(bytes),
        letters: 1,
        states: Vec::new(alloc),
        arcs: BTreeMap::new(alloc),
        start: None,
    };
    let mut offset = 0usize;
    // each round but the last reads a field
    for _ in 0..=LONGEST {
        if offset > 0 && offset == bytes.len() {
            break;
        }
        let field = Field::at(bytes, offset);
        if let Some(number) = drawing.refusal(field, offset == 0) {
            return Ok(Reading::Refused(Refused { number, offset }));
        }
        if let Some(field) = field {
            drawing.add(field)?;
            offset = offset.saturating_add(field.size());
        }
    }
    Ok(Reading::Drawn(drawing))
}

impl Drawing {
    pub(crate) fn count(&self) -> u16 {
        u16::try_from(self.states.len()).unwrap_or(u16::MAX)
    }

    // Whether one more state has room.
    fn has_room(&self) -> bool {
        let count = self.states.len().saturating_add(1);
        let arcs = count.saturating_mul(usize::from(self.letters));
        count <= MARKS && arcs < PLACES
    }

    // The number by which a field is refused; there is none where it is not well formed.
    fn refusal(&self, field: Option<Field>, is_first: bool) -> Option<u8> {
        let Some(field) = field else {
            return Some(7);
        };
        match field {
            Field::Head { kind, letters } => {
                if !is_first || kind != self.kind.number() {
                    return Some(7);
                }
                (!(1..=64).contains(&letters)).then_some(1)
            },
            _ if is_first => Some(7),
            Field::State { mark } => {
                if mark > 1 {
                    return Some(7);
                }
                (!self.has_room()).then_some(5)
            },
            Field::Arc {
                from,
                letter,
                to,
                code,
            } => {
                if !self.kind.has_code(code) {
                    return Some(4);
                }
                if from >= self.count() {
                    return Some(2);
                }
                if letter >= self.letters {
                    return Some(3);
                }
                if to >= self.count() {
                    return Some(2);
                }
                self.arcs.contains_key(&(from, letter)).then_some(10)
            },
            Field::Start { state, code } => {
                if !self.kind.has_code(code) {
                    return Some(4);
                }
                (state >= self.count()).then_some(2)
            },
        }
    }

    fn add(&mut self, field: Field) -> Result<(), AllocError> {
        match field {
            Field::Head { letters, .. } => self.letters = letters,
            Field::State { mark } => self.states.push(mark == 1)?,
            Field::Arc {
                from,
                letter,
                to,
                code,
            } => {
                self.arcs.insert((from, letter), Step { to, code })?;
            },
            Field::Start { state, code } => self.start = Some(Step { to: state, code }),
        }
        Ok(())
    }

    // The arc of a state and a letter; one that is not drawn leads to the off state.
    pub(crate) fn arc(&self, state: u16, letter: u8) -> Step {
        self.step(self.arcs.get(&(state, letter)).copied())
    }

    // The start, or the off state.
    pub(crate) fn start(&self) -> Step {
        self.step(self.start)
    }

    fn step(&self, step: Option<Step>) -> Step {
        step.unwrap_or(Step {
            to: self.count(),
            code: self.kind.one(),
        })
    }
}
