ghost use Rattle.std.specs.Prelude.{◌≡◌, ◌+◌, ◌*◌, ◌<◌, ◌≤◌, length};
ghost use Rattle.tables.specs.Book.{laid};
ghost use Rattle.drafts.specs.Written.{over};
ghost use Rattle.minimize.specs.Rows.{rows_table};
ghost use Rattle.listings.specs.Text.{Put};
ghost use Rattle.listings.specs.Rows.{Listable, laid_rows};
ghost use Rattle.listings.specs.Listing.{counts_text, start_text, state_line, states_text, arc_line, arc_text, arcs_text, listing_text};

use crate::text::{put, put_field, put_line};
use drafts::code_of;
use minimize::Report;
use weights::Coded;

// A table that lies in three slices in the layout of a book.
#[derive(Clone, Copy)]
struct Rows<'a, W> {
    targets: &'a [u16],
    weights: &'a [W],
    marks: &'a [u8],
    letters: u8,
    states: u16,
}

// Puts the lines of the counts.
fn put_counts(least: u16, hyper: u16, kernel: u16, agree: u16, at: usize, out: &mut [u8]) -> usize
    requires { at + 49 ≤ length out.old }
    ensures put { Put (counts_text least hyper kernel agree) at out.old out.new result }
    ensures few { result ≤ at + 49 }
{
    let next = put_line(b"least ", least, at, out);
    let next = put_line(b"hyper ", hyper, next, out);
    let next = put_line(b"kernel ", kernel, next, out);
    put_line(b"agree ", agree, next, out)
}

// Puts the line of the start.
fn put_start<W: Coded>(rows: &Rows<'_, W>, at: usize, out: &mut [u8]) -> usize
    requires listable { Listable (laid_rows rows.now) }
    requires room { at + 18 ≤ length out.old }
    ensures put { Put (start_text W.kind W.codes (rows_table W.kind (laid_rows rows.now))) at out.old out.new result }
    ensures few { result ≤ at + 18 }
{
    let code = code_of(rows.weights[0]);
    let next = put_field(b"start ", rows.targets[0], at, out);
    put_line(b" ", code, next, out)
}

// Puts the line of a state.
fn put_state(state: u16, accepting: bool, at: usize, out: &mut [u8]) -> usize
    requires { at + 18 ≤ length out.old }
    ensures put { Put (state_line state accepting) at out.old out.new result }
    ensures few { result ≤ at + 18 }
{
    let next = put_field(b"state ", state, at, out);
    if accepting {
        put(b" final\n", next, out)
    } else {
        put(b" no\n", next, out)
    }
}

// Puts the lines of the states.
fn put_states<W: Coded>(rows: &Rows<'_, W>, at: usize, out: &mut [u8]) -> usize
    requires listable { Listable (laid_rows rows.now) }
    requires room { at + 18 * rows.now.states ≤ length out.old }
    ensures put { Put (states_text (rows_table W.kind (laid_rows rows.now)).final rows.now.states) at out.old out.new result }
    ensures few { result ≤ at + 18 * rows.now.states }
{
    let mut next = at;
    for state in 0..rows.states {
        let accepting = rows.marks[usize::from(state)] % 2 == 1;
        next = put_state(state, accepting, next, out);
    }
    next
}

// Puts the line of an arc.
fn put_arc(from: u16, letter: u8, to: u16, code: u16, at: usize, out: &mut [u8]) -> usize
    requires { at + 28 ≤ length out.old }
    ensures put { Put (arc_line from letter to code) at out.old out.new result }
    ensures few { result ≤ at + 28 }
{
    let next = put_field(b"arc ", from, at, out);
    let next = put_field(b" ", u16::from(letter), next, out);
    let next = put_field(b" ", to, next, out);
    put_line(b" ", code, next, out)
}

// How many arcs a table has.
fn arc_count<W: Coded>(rows: &Rows<'_, W>) -> usize
    ensures { result ≡ rows.now.states * rows.now.letters }
{
    usize::from(rows.states) * usize::from(rows.letters)
}

// Puts the line of an arc that is given by its number.
fn put_arc_at<W: Coded>(rows: &Rows<'_, W>, arc: usize, at: usize, out: &mut [u8]) -> usize
    requires listable { Listable (laid_rows rows.now) }
    requires inside { arc < rows.now.states * rows.now.letters }
    requires room { at + 28 ≤ length out.old }
    ensures put { Put (arc_text W.kind W.codes (rows_table W.kind (laid_rows rows.now)) arc) at out.old out.new result }
    ensures few { result ≤ at + 28 }
{
    let letters = usize::from(rows.letters);
    let from = (arc / letters) as u16;
    let letter = (arc % letters) as u8;
    let code = code_of(rows.weights[1 + arc]);
    put_arc(from, letter, rows.targets[1 + arc], code, at, out)
}

// Puts the lines of the arcs.
fn put_arcs<W: Coded>(rows: &Rows<'_, W>, at: usize, out: &mut [u8]) -> usize
    requires listable { Listable (laid_rows rows.now) }
    requires room { at + 28 * (rows.now.states * rows.now.letters) ≤ length out.old }
    ensures put { Put (arcs_text W.kind W.codes (rows_table W.kind (laid_rows rows.now)) (rows.now.states * rows.now.letters)) at out.old out.new result }
    ensures few { result ≤ at + 28 * (rows.now.states * rows.now.letters) }
{
    let mut next = at;
    for arc in 0..arc_count(rows) {
        next = put_arc_at(rows, arc, next, out);
    }
    next
}

// Writes the listing of a hyper table over the front of a memory: its counts, its start, its states in order and its arcs by state
// and letter. The answer is the length of the listing.
pub(crate) fn write_listing<W: Coded>(
    report: Report,
    letters: u8,
    targets: &[u16],
    weights: &[W],
    marks: &[u8],
    out: &mut [u8],
) -> usize
    requires listable { Listable (laid targets.now weights.now marks.now letters report.hyper) }
    requires room { 32768 ≤ length out.old }
    ensures length { result ≡ length (listing_text W.kind W.codes (rows_table W.kind (laid targets.now weights.now marks.now letters report.hyper)) report.least report.hyper report.kernel report.agreement) }
    ensures bytes { out.new ≡ over (listing_text W.kind W.codes (rows_table W.kind (laid targets.now weights.now marks.now letters report.hyper)) report.least report.hyper report.kernel report.agreement) out.old }
    ensures fits { result ≤ 32768 }
{
    let rows = Rows {
        targets,
        weights,
        marks,
        letters,
        states: report.hyper,
    };
    let next = put_counts(
        report.least,
        report.hyper,
        report.kernel,
        report.agreement,
        0,
        out,
    );
    let next = put_start(&rows, next, out);
    let next = put_states(&rows, next, out);
    put_arcs(&rows, next, out)
}
