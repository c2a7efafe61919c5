ghost use Rattle.std.specs.Prelude.{◌≡◌, IfOk, nat_lt};
ghost use Rattle.weights.specs.Codes.{within};
ghost use Rattle.weights.specs.Refusal.{outcome_as, judged};
ghost use Rattle.sources.specs.Fold.{fold_verdict, fold_letters, acts_as, fold_table, fold_lawful, folding, WeighsAsImage};

use crate::letters::LetterMap;
use tables::{Source, first_no_letter, letters_read};
use weights::{Refusal, Weight};

// A source with letters of its own, each of which acts as one of the source's. What it holds is checked where a question is asked. The
// count of its letters stands beside the map, which always has 64 places.
#[derive(Drop)]
pub struct Fold<S> {
    source: S,
    map: LetterMap,
    letters: u8,
}

impl<S: Drop> Fold<S> {
    // The fold of a source over a list of its letters. Refused: a list that is empty or has more than 64 places by 1, then a byte that
    // is no letter of the source by 3, with the index of the first such byte.
    pub fn new<W: Weight>(source: S, letters: &[u8]) -> Result<Fold<S>, Refusal>
    where
        S: Source<W>,
        ensures answer { outcome_as folding result ≡ judged (fold_verdict (S.table source W.kind).letters letters.now) (record { source = source; letters = letters.now }) }
        ensures weighs { IfOk result (λ f. WeighsAsImage W.kind.group letters.now (S.table source W.kind) (fold_table (S.table source W.kind) f)) }
    {
        if !(1..=64).contains(&letters.len()) {
            return Err(Refusal::Letters);
        }
        if let Some(index) = first_no_letter(letters, source.letters()) {
            return Err(Refusal::NoLetterAt(index));
        }
        Ok(Fold {
            source,
            map: LetterMap::of(letters),
            // at most 64, so `as` fits where a `try_from` could fail
            letters: letters.len() as u8,
        })
    }
}

impl<S> Fold<S> {
    // The letter of the source that a letter of the fold acts as.
    fn image<W: Weight>(&self, letter: u8) -> Option<u8>
    where
        S: Source<W>,
        ensures { result ≡ within (nat_lt letter (fold_letters self.now)) (acts_as self.now.map (S.table self.now.source W.kind).letters letter) }
    {
        if letter >= self.letters() {
            return None;
        }
        let letters = self.source.letters();
        let image = self.map.letter(letter);
        Some(if image < letters { image } else { 0 })
    }
}

impl<W: Weight, S: Source<W>> Source<W> for Fold<S> {
    ghost table = { λ f K. fold_table (S.table f.source K) f };

    ghost lawful = { λ f K. fold_lawful (S.table f.source K) f (S.lawful f.source K) };

    fn states(&self) -> u16 {
        self.source.states()
    }

    fn letters(&self) -> u8 {
        letters_read(self.letters)
    }

    fn start(&self) -> u16 {
        self.source.start()
    }

    fn start_weight(&self) -> W {
        self.source.start_weight()
    }

    fn is_final(&self, state: u16) -> Option<bool> {
        self.source.is_final(state)
    }

    fn target(&self, state: u16, letter: u8) -> Option<u16> {
        let image = self.image(letter)?;
        self.source.target(state, image)
    }

    fn weight(&self, state: u16, letter: u8) -> Option<W> {
        let image = self.image(letter)?;
        self.source.weight(state, image)
    }
}
