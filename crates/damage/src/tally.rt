use crate::harm::{DAMAGES, Damage};
use crate::kind::Kind;
use anyhow::{Result, bail};

// What a row counts: files that were listed, 0, and files that were refused with each number by which a file may be.
pub(crate) const NUMBERS: [u8; 9] = [0, 1, 2, 3, 4, 5, 6, 7, 10];

// How often files were answered by each of the numbers, in their order.
#[derive(Clone, Copy)]
pub(crate) struct Row {
    counts: [u64; 9],
}

impl Row {
    fn new() -> Row {
        Row { counts: [0; 9] }
    }

    // Counts a file. A number that no file is to be answered by is an error.
    fn add(&mut self, number: u8) -> Result<()> {
        let Some(place) = NUMBERS.iter().position(|other| *other == number) else {
            bail!("no file may be refused with {number}");
        };
        self.counts[place] = self.counts[place].saturating_add(1);
        Ok(())
    }

    pub(crate) fn counts(&self) -> [u64; 9] {
        self.counts
    }

    pub(crate) fn files(&self) -> u64 {
        let mut files = 0u64;
        for count in self.counts {
            files = files.saturating_add(count);
        }
        files
    }
}

#[derive(Clone, Copy)]
pub(crate) struct Tally {
    pub(crate) all: Row,
    pub(crate) undamaged: Row,
    pub(crate) plain: Row,
    pub(crate) check: Row,
    pub(crate) wheel: Row,
    pub(crate) beam_wheel: Row,
    // in the order of `DAMAGES`
    pub(crate) damages: [Row; 13],
    // listings of a hyper table with fewer states than the least one
    pub(crate) smaller: u64,
    // memories too short for a text
    pub(crate) short: u64,
}

impl Tally {
    pub(crate) fn new() -> Tally {
        Tally {
            all: Row::new(),
            undamaged: Row::new(),
            plain: Row::new(),
            check: Row::new(),
            wheel: Row::new(),
            beam_wheel: Row::new(),
            damages: [Row::new(); 13],
            smaller: 0,
            short: 0,
        }
    }

    // Counts a file once for each kind of damage done to it.
    pub(crate) fn add(&mut self, kind: Kind, damages: &[Damage], number: u8) -> Result<()> {
        self.all.add(number)?;
        if damages.is_empty() {
            self.undamaged.add(number)?;
        }
        match kind {
            Kind::Plain => self.plain.add(number)?,
            Kind::Check => self.check.add(number)?,
            Kind::Wheel => self.wheel.add(number)?,
            Kind::BeamWheel => self.beam_wheel.add(number)?,
        }
        for (place, damage) in damages.iter().enumerate() {
            // one that is done twice is counted once
            if damages.iter().position(|other| *other == *damage) == Some(place) {
                self.add_damage(*damage, number)?;
            }
        }
        Ok(())
    }

    // Counts a file in the row of a damage. One that `DAMAGES` lacks is an error.
    fn add_damage(&mut self, damage: Damage, number: u8) -> Result<()> {
        let Some(place) = DAMAGES.iter().position(|(other, _)| *other == damage) else {
            bail!("a kind of damage has no row");
        };
        self.damages[place].add(number)
    }
}
