use std::alloc::AllocError;

// A field of a draft file.
#[derive(Clone, Copy, PartialEq, Eq, Debug)]
pub(crate) enum Field {
    Head {
        kind: u8,
        letters: u8,
    },
    State {
        mark: u8,
    },
    Arc {
        from: u16,
        letter: u8,
        to: u16,
        code: u16,
    },
    Start {
        state: u16,
        code: u16,
    },
}

impl Field {
    // How many bytes it has in a file.
    pub(crate) fn size(self) -> usize {
        match self {
            Field::Head { .. } => 5,
            Field::State { .. } => 4,
            Field::Arc { .. } => 10,
            Field::Start { .. } => 7,
        }
    }

    // The state and the letter of an arc.
    pub(crate) fn arc_place(self) -> Option<(u16, u8)> {
        match self {
            Field::Arc { from, letter, .. } => Some((from, letter)),
            _ => None,
        }
    }

    // The field with each state moved on by so many.
    pub(crate) fn moved_on(self, by: u16) -> Field {
        match self {
            Field::Arc {
                from,
                letter,
                to,
                code,
            } => Field::Arc {
                from: from.saturating_add(by),
                letter,
                to: to.saturating_add(by),
                code,
            },
            Field::Start { state, code } => Field::Start {
                state: state.saturating_add(by),
                code,
            },
            _ => self,
        }
    }

    // Writes it at the end of a file.
    pub(crate) fn add_to(self, file: &mut Vec<u8>) -> Result<(), AllocError> {
        match self {
            Field::Head { kind, letters } => file.extend_from_slice(&[1, 0, 2, kind, letters]),
            Field::State { mark } => file.extend_from_slice(&[2, 0, 1, mark]),
            Field::Arc {
                from,
                letter,
                to,
                code,
            } => {
                let [from_high, from_low] = from.to_be_bytes();
                let [to_high, to_low] = to.to_be_bytes();
                let [code_high, code_low] = code.to_be_bytes();
                file.extend_from_slice(&[
                    3, 0, 7, from_high, from_low, letter, to_high, to_low, code_high, code_low,
                ])
            },
            Field::Start { state, code } => {
                let [state_high, state_low] = state.to_be_bytes();
                let [code_high, code_low] = code.to_be_bytes();
                file.extend_from_slice(&[4, 0, 4, state_high, state_low, code_high, code_low])
            },
        }
    }

    // The field whose tag stands at an offset; none where it is not well formed.
    pub(crate) fn at(bytes: &[u8], offset: usize) -> Option<Field> {
        match bytes.get(offset..)? {
            [1, 0, 2, kind, letters, ..] => Some(Field::Head {
                kind: *kind,
                letters: *letters,
            }),
            [2, 0, 1, mark, ..] => Some(Field::State { mark: *mark }),
            [
                3,
                0,
                7,
                from_high,
                from_low,
                letter,
                to_high,
                to_low,
                code_high,
                code_low,
                ..
            ] => Some(Field::Arc {
                from: u16::from_be_bytes([*from_high, *from_low]),
                letter: *letter,
                to: u16::from_be_bytes([*to_high, *to_low]),
                code: u16::from_be_bytes([*code_high, *code_low]),
            }),
            [4, 0, 4, state_high, state_low, code_high, code_low, ..] => Some(Field::Start {
                state: u16::from_be_bytes([*state_high, *state_low]),
                code: u16::from_be_bytes([*code_high, *code_low]),
            }),
            _ => None,
        }
    }
}
