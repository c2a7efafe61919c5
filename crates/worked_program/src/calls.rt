// The calls that draw the worked drafts, with codes in place of weights.
use tables::Call;

fn rule(letters: u8) -> Call<u16> {
    Call::Rule { letters }
}

fn state(accepting: bool) -> Call<u16> {
    Call::State { accepting }
}

fn arc(from: u16, letter: u8, to: u16, weight: u16) -> Call<u16> {
    Call::Arc {
        from,
        letter,
        to,
        weight,
    }
}

fn start(state: u16, weight: u16) -> Call<u16> {
    Call::Start { state, weight }
}

// One final state, with no arc, so that its arc leads to the off state.
pub(crate) fn one_state() -> [Call<u16>; 2] {
    [state(true), start(0, 5)]
}

// States 1 and 2 lead to state 3. Where `last` is 10, state 2 weighs all words but the empty one as 5/2 times what state 1 does; else no
// factor does that.
pub(crate) fn fork(last: u16) -> [Call<u16>; 14] {
    [
        rule(2),
        state(false),
        state(false),
        state(true),
        state(true),
        arc(0, 0, 1, 1),
        arc(0, 1, 2, 1),
        arc(1, 0, 3, 2),
        arc(1, 1, 3, 4),
        arc(2, 0, 3, 5),
        arc(2, 1, 3, last),
        arc(3, 0, 3, 3),
        arc(3, 1, 3, 1),
        start(0, 7),
    ]
}

// State 0 leads to itself and to the others, states 1 and 2 to state 3, and that to itself.
pub(crate) fn spin() -> [Call<u16>; 18] {
    [
        rule(3),
        state(false),
        state(true),
        state(false),
        state(true),
        arc(0, 0, 0, 0),
        arc(0, 1, 1, 0),
        arc(0, 2, 2, 0),
        arc(1, 0, 3, 0),
        arc(1, 1, 3, 0),
        arc(1, 2, 3, 0),
        arc(2, 0, 3, 0),
        arc(2, 1, 3, 0),
        arc(2, 2, 3, 0),
        arc(3, 0, 3, 1),
        arc(3, 1, 3, 1),
        arc(3, 2, 3, 1),
        start(0, 0),
    ]
}

// State 2 weighs each word 360 places on from where state 1 does, if 360 and 360 come round to place 0. Both wheels have the codes.
pub(crate) fn round() -> [Call<u16>; 14] {
    [
        rule(2),
        state(true),
        state(false),
        state(false),
        state(true),
        arc(0, 0, 1, 0),
        arc(0, 1, 2, 0),
        arc(1, 0, 3, 0),
        arc(1, 1, 3, 360),
        arc(2, 0, 3, 360),
        arc(2, 1, 3, 0),
        arc(3, 0, 3, 0),
        arc(3, 1, 3, 1),
        start(0, 0),
    ]
}
