ghost use Rattle.std.specs.Prelude.{◌≡◌, ◌*◌, ◌/◌, ◌%◌, ◌<◌, length};
ghost use Rattle.weights.specs.Codes.{code_for};
ghost use Rattle.weights.specs.Refusal.{outcome, judged};
ghost use Rattle.tables.specs.declared.call.Call.TheVariants.{Rule};
ghost use Rattle.drafts.specs.Parts.{states_bytes, arcs_bytes, NamedArc, NamedBelow};
ghost use Rattle.drafts.specs.Written.{field_of, Named, arc_count, draft_size, write_verdict, state_call, arc_call, start_call, DraftWritten};

use crate::tag::{ARC_LENGTH, HEAD_LENGTH, START_LENGTH, STATE_LENGTH, Tag};
use tables::Source;
use weights::{Coded, Refusal};

// The code of an element, which is the code of its meaning.
pub fn code_of<W: Coded>(weight: W) -> u16
    ensures code { result ≡ code_for W.kind W.codes (W.kind.mean weight) }
    ensures named { Named W.kind W.codes (W.kind.mean weight) }
{
    weight.code()
}

// How many arcs a source has.
fn arc_count<W: Coded, S: Source<W>>(source: &S) -> usize
    ensures { result ≡ arc_count (S.table source.now W.kind) }
{
    usize::from(source.states()) * usize::from(source.letters())
}

// The head: the kind and the letters.
fn head_field<W: Coded, S: Source<W>>(source: &S) -> [u8; HEAD_LENGTH]
    ensures { result ≡ field_of W.codes.number (Rule (S.table source.now W.kind).letters) }
{
    [Tag::Head as u8, 0, 2, W::kind_number(), source.letters()]
}

// A state: 1 for final, or 0.
fn state_field<W: Coded, S: Source<W>>(source: &S, state: u16) -> [u8; STATE_LENGTH]
    requires { state < (S.table source.now W.kind).states }
    ensures { result ≡ field_of W.codes.number (state_call W.kind W.codes (S.table source.now W.kind) state) }
{
    let accepting = source.is_final(state).unwrap();
    [Tag::State as u8, 0, 1, u8::from(accepting)]
}

// The state and the letter of an arc, given by its number.
fn arc_place<W: Coded, S: Source<W>>(source: &S, arc: usize) -> (u16, u8)
    requires { arc < arc_count (S.table source.now W.kind) }
    ensures place { (result.0 ≡ arc / (S.table source.now W.kind).letters) × (result.1 ≡ arc % (S.table source.now W.kind).letters) }
    ensures inside { (result.0 < (S.table source.now W.kind).states) × (result.1 < (S.table source.now W.kind).letters) }
{
    let letters = usize::from(source.letters());
    // both fit, as is proved, and a `try_from` could fail
    ((arc / letters) as u16, (arc % letters) as u8)
}

// An arc, given by its number: a state, a letter, a target and a code.
fn arc_field<W: Coded, S: Source<W>>(source: &S, arc: usize) -> [u8; ARC_LENGTH]
    requires { arc < arc_count (S.table source.now W.kind) }
    ensures named { NamedArc W.kind W.codes (S.table source.now W.kind) arc }
    ensures bytes { result ≡ field_of W.codes.number (arc_call W.kind W.codes (S.table source.now W.kind) arc) }
{
    let (from, letter) = arc_place(source, arc);
    let to = source.target(from, letter).unwrap();
    let code = code_of(source.weight(from, letter).unwrap());
    let [q1, q0] = from.to_be_bytes();
    let [r1, r0] = to.to_be_bytes();
    let [c1, c0] = code.to_be_bytes();
    [Tag::Arc as u8, 0, 7, q1, q0, letter, r1, r0, c1, c0]
}

// A start: a state and a code.
fn start_field<W: Coded, S: Source<W>>(source: &S) -> [u8; START_LENGTH]
    ensures named { Named W.kind W.codes (S.table source.now W.kind).start_weight }
    ensures bytes { result ≡ field_of W.codes.number (start_call W.kind W.codes (S.table source.now W.kind)) }
{
    let state = source.start();
    let code = code_of(source.start_weight());
    let [q1, q0] = state.to_be_bytes();
    let [c1, c0] = code.to_be_bytes();
    [Tag::Start as u8, 0, 4, q1, q0, c1, c0]
}

// Fills a memory with the states. It is not one function with `write_arcs`: that would take a field as a closure, and its promise, about
// the closure's `post` at each index, would be no plainer.
fn write_states<W: Coded, S: Source<W>>(source: &S, out: &mut [u8])
    requires { 4 * (S.table source.now W.kind).states ≡ length out.old }
    ensures { out.new ≡ states_bytes W.kind W.codes (S.table source.now W.kind) (S.table source.now W.kind).states }
{
    // By index: after a loop over lent chunks a proof would know only the length.
    for state in 0..source.states() {
        let at = STATE_LENGTH * usize::from(state);
        out[at..at + STATE_LENGTH].copy_from_slice(&state_field(source, state));
    }
}

// Fills a memory with the arcs, by state and letter; by index, as the states.
fn write_arcs<W: Coded, S: Source<W>>(source: &S, out: &mut [u8])
    requires { 10 * arc_count (S.table source.now W.kind) ≡ length out.old }
    ensures named { NamedBelow W.kind W.codes (S.table source.now W.kind) (arc_count (S.table source.now W.kind)) }
    ensures bytes { out.new ≡ arcs_bytes W.kind W.codes (S.table source.now W.kind) (arc_count (S.table source.now W.kind)) }
{
    for arc in 0..arc_count(source) {
        let at = ARC_LENGTH * arc;
        out[at..at + ARC_LENGTH].copy_from_slice(&arc_field(source, arc));
    }
}

// The length of the draft file of a source, or the refusal of writing it into so many bytes.
fn draft_length<W: Coded, S: Source<W>>(source: &S, room: usize) -> Result<usize, Refusal>
    ensures { outcome result ≡ judged (write_verdict (S.table source.now W.kind) room) (draft_size (S.table source.now W.kind)) }
{
    let states = usize::from(source.states());
    if states >= 4096 {
        return Err(Refusal::StateCount);
    }
    let length = HEAD_LENGTH
        + STATE_LENGTH * states
        + ARC_LENGTH * arc_count(source)
        + START_LENGTH;
    if room < length {
        return Err(Refusal::ShortMemory);
    }
    Ok(length)
}

// Writes a source as a draft file: the head, the states, the arcs by state and letter, and the start. The answer is the file's
// length. Refused: 4,096 states by 8, then a memory that is too short by 6.
pub fn write_draft<W: Coded, S: Source<W>>(source: &S, out: &mut [u8]) -> Result<usize, Refusal>
    ensures { DraftWritten W.kind W.codes (S.table source.now W.kind) out.old out.new result }
{
    let length = draft_length(source, out.len())?;
    let (head, rest) = out.split_at_mut(HEAD_LENGTH);
    let (states, rest) = rest.split_at_mut(STATE_LENGTH * usize::from(source.states()));
    let (arcs, rest) = rest.split_at_mut(ARC_LENGTH * arc_count(source));
    head.copy_from_slice(&head_field(source));
    write_states(source, states);
    write_arcs(source, arcs);
    rest[..START_LENGTH].copy_from_slice(&start_field(source));
    Ok(length)
}
