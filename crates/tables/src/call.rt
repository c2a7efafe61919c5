// A call on an open book, as a value.
#[derive(Clone, Copy)]
pub enum Call<W> {
    // set the letters
    Rule {
        letters: u8,
    },
    // add the next state
    State {
        accepting: bool,
    },
    // draw one arc
    Arc {
        from: u16,
        letter: u8,
        to: u16,
        weight: W,
    },
    // set the start
    Start {
        state: u16,
        weight: W,
    },
}
