use random::mixed;
use weights::Coded;

// What a number is drawn for.
#[derive(Clone, Copy)]
pub(crate) enum Purpose {
    Target,
    Copy,
    Weight,
    Factor,
    Final,
}

// A number that looks random and is the same in every run: the last step of the generator SplitMix64.
fn drawn(purpose: Purpose, state: u16, letter: u8) -> u64 {
    let place = (purpose as u64) << 32 | u64::from(state) << 8 | u64::from(letter);
    let place = place.wrapping_add(1).wrapping_mul(0x9e37_79b9_7f4a_7c15);
    mixed(place)
}

// A number from 0 to below `width`; 0 where there is none.
pub(crate) fn below(width: u16, purpose: Purpose, state: u16, letter: u8) -> u16 {
    let width = u64::from(width.max(1));
    u16::try_from(drawn(purpose, state, letter) % width).unwrap_or(0)
}

// Half of the states.
pub(crate) fn is_half(state: u16) -> bool {
    below(2, Purpose::Final, state, 0) == 1
}

// An element, by one of the codes from 1 to 256.
pub(crate) fn element<W: Coded>(purpose: Purpose, state: u16, letter: u8) -> W {
    let code = below(256, purpose, state, letter).saturating_add(1);
    W::from_code(code).unwrap_or(W::one())
}
