use crate::field::Field;
use crate::kind::Kind;
use random::Random;
use std::alloc::{AllocError, Global};

// What a file is drawn by.
#[derive(Clone, Copy)]
pub(crate) struct Plan {
    pub(crate) kind: Kind,
    pub(crate) letters: u8,
    pub(crate) states: u16,
    // the states from this one on lead to one another, those before it to later ones
    late: u16,
    // of a hundred states and arcs
    accepting: u16,
    undrawn: u16,
}

impl Plan {
    pub(crate) fn drawn(random: &mut Random, number: u32) -> Plan {
        let kind = match number % 4 {
            0 => Kind::Plain,
            1 => Kind::Check,
            2 => Kind::Wheel,
            _ => Kind::BeamWheel,
        };
        let few = random.letter(4).saturating_add(1);
        let small = random.between(0, 11);
        let (letters, states) = match random.between(0, 40) {
            // any letters, or none
            0 => (random.byte(), random.between(0, 4)),
            // many letters, and mostly room for the states
            1 => {
                let letters = random.letter(49).saturating_add(16);
                let most = 1016u16.checked_div(u16::from(letters)).unwrap_or(0);
                (letters, random.between(1, most.saturating_add(2)))
            },
            // mostly as many states as there is room for
            2 => {
                let letters = random.letter(9).saturating_add(1);
                let most = 1016u16.checked_div(u16::from(letters)).unwrap_or(0);
                (letters, most.min(127).saturating_add(random.between(0, 2)))
            },
            _ => (few, small),
        };
        Plan {
            kind,
            letters,
            states,
            late: random.between(0, states),
            accepting: random.between(0, 60),
            undrawn: random.between(0, 30),
        }
    }

    // A code of the kind, from a small set, so that different words often weigh the same.
    fn code(self, random: &mut Random) -> u16 {
        let choice = random.between(0, 8);
        match self.kind {
            Kind::Plain => 0,
            Kind::Check => match choice {
                0 => 2,
                1 => 3,
                2 => 129,
                3 => 256,
                _ => 1,
            },
            Kind::Wheel => match choice {
                0 => 1,
                1 => 360,
                2 => 719,
                _ => 0,
            },
            Kind::BeamWheel => match choice {
                0 => 1,
                1 => 720,
                2 => 1439,
                _ => 0,
            },
        }
    }

    // The arc of a state and a letter, to one of so many states.
    pub(crate) fn any_arc(self, random: &mut Random, from: u16, letter: u8, states: u16) -> Field {
        Field::Arc {
            from,
            letter,
            to: random.between(0, states),
            code: self.code(random),
        }
    }

    // A start among so many states.
    pub(crate) fn any_start(self, random: &mut Random, states: u16) -> Field {
        Field::Start {
            state: random.between(0, states),
            code: self.code(random),
        }
    }

    // The fields of a draft that is sound, unless letters or states are too many: each arc is drawn once.
    pub(crate) fn fields(
        self,
        random: &mut Random,
        alloc: Global,
    ) -> Result<Vec<Field>, AllocError> {
        let mut fields = Vec::new(alloc);
        fields.push(Field::Head {
            kind: self.kind.number(),
            letters: self.letters,
        })?;
        let early = if random.chance(30) { 20 } else { 0 };
        for state in 0..self.states {
            fields.push(Field::State {
                mark: u8::from(random.chance(self.accepting)),
            })?;
            if random.chance(early) {
                let drawn = state.saturating_add(1);
                let from = random.between(0, drawn);
                let letter = random.letter(self.letters);
                add_arc(self.any_arc(random, from, letter, drawn), &mut fields)?;
                fields.push(self.any_start(random, drawn))?;
            }
        }
        let copied = if random.chance(60) { 40 } else { 0 };
        for state in 0..self.states {
            if random.chance(copied) {
                self.copy_row(random, state, &mut fields)?;
            } else {
                self.draw_row(random, state, &mut fields)?;
            }
        }
        if self.states > 0 && random.chance(95) {
            let high = if random.chance(70) { 1 } else { self.states };
            fields.push(self.any_start(random, high))?;
        }
        Ok(fields)
    }

    // Adds the arcs of a state.
    fn draw_row(
        self,
        random: &mut Random,
        state: u16,
        fields: &mut Vec<Field>,
    ) -> Result<(), AllocError> {
        let next = state.saturating_add(1);
        let low = if state >= self.late || random.chance(40) {
            self.late
        } else {
            next
        };
        let high = if random.chance(50) {
            self.states
        } else {
            self.states.min(low.saturating_add(3))
        };
        for letter in 0..self.letters {
            if !random.chance(self.undrawn) {
                let arc = Field::Arc {
                    from: state,
                    letter,
                    to: random.between(low, high),
                    code: self.code(random),
                };
                add_arc(arc, fields)?;
            }
        }
        Ok(())
    }

    // Adds the arcs of an earlier state as those of a state, their weights times a factor on the left.
    fn copy_row(
        self,
        random: &mut Random,
        state: u16,
        fields: &mut Vec<Field>,
    ) -> Result<(), AllocError> {
        let copied = random.between(state.saturating_sub(3), state);
        let factor = self.code(random);
        for place in 0..fields.len() {
            if let Some(
                Field::Arc {
                    from,
                    letter,
                    to,
                    code,
                },
            ) = fields.get(place).copied()
            {
                if from == copied && copied < state {
                    let arc = Field::Arc {
                        from: state,
                        letter,
                        to,
                        code: self.kind.product(factor, code),
                    };
                    add_arc(arc, fields)?;
                }
            }
        }
        Ok(())
    }
}

// Adds an arc, unless its state and letter have one.
fn add_arc(arc: Field, fields: &mut Vec<Field>) -> Result<(), AllocError> {
    let place = arc.arc_place();
    if !fields.iter().any(|field| field.arc_place() == place) {
        fields.push(arc)?;
    }
    Ok(())
}

// The bytes of a file with these fields.
pub(crate) fn file_of(fields: &[Field], alloc: Global) -> Result<Vec<u8>, AllocError> {
    let mut file = Vec::new(alloc);
    for field in fields.iter() {
        field.add_to(&mut file)?;
    }
    Ok(file)
}
