ghost use Rattle.std.specs.Prelude.{◌*◌, ◌≤◌, length};
ghost use Rattle.weights.specs.Check.{check_kind};
ghost use Rattle.weights.specs.Codes.{plain_codes, check_codes, wheel_codes, beam_wheel_codes};
ghost use Rattle.weights.specs.Plain.{plain_kind};
ghost use Rattle.weights.specs.Wheel.{wheel_kind, beam_wheel_kind};
ghost use Rattle.minimize.specs.Memories.{memories};
ghost use Rattle.listings.specs.Answer.{Answers, Lists};
ghost use Rattle.listings.specs.File.{FileText, HyperText, KindText, refused_text};
ghost use Rattle.listings.specs.Places.{BookPlaces, TablePlaces};
ghost use Rattle.listings.specs.Text.{Put};

use crate::text::{put, put_field, put_number};
use crate::write::write_listing;
use drafts::{FileKind, read_draft};
use minimize::{StateMemory, TableMemory, WorkMemory, compile};
use tables::{Book, Source};
use weights::{BeamWheel, Check, Coded, Plain, Refusal, Wheel};

// How many bytes a listing may take, and how many a file may have.
const TEXT_SIZE: usize = 32_768;

const FILE_SIZE: usize = 16_384;

// Puts the line of a refusal at the front.
fn put_refused(number: u8, offset: usize, out: &mut [u8]) -> usize
    requires { 32768 ≤ length out.old }
    ensures { Put (refused_text number offset) 0 out.old out.new result }
{
    let next = put_field(b"refused ", u16::from(number), 0, out);
    let next = put(b" ", next, out);
    let next = put_number(offset, next, out);
    put(b"\n", next, out)
}

// Compiles a source and lists its hyper table.
fn list_source<W: Coded, S: Source<W>>(
    source: &S,
    targets: &mut [u16],
    weights: &mut [W],
    marks: &mut [u8],
    hyper_targets: &mut [u16],
    hyper_weights: &mut [W],
    hyper_marks: &mut [u8],
    representatives: &mut [u16],
    factors: &mut [W],
    numbers: &mut [u16],
    elements: &mut [W],
    out: &mut [u8],
) -> usize
    requires places { TablePlaces (memories targets.old weights.old marks.old hyper_targets.old hyper_weights.old hyper_marks.old representatives.old factors.old numbers.old elements.old) }
    requires few_states { (S.table source.now W.kind).states ≤ 128 }
    requires few_arcs { (S.table source.now W.kind).states * (S.table source.now W.kind).letters ≤ 1080 }
    requires room { 32768 ≤ length out.old }
    ensures { Lists (HyperText W.kind W.codes (S.table source.now W.kind)) out.old out.new result }
{
    let compiled = compile(
        source,
        TableMemory {
            targets,
            weights,
            marks,
        },
        TableMemory {
            targets: hyper_targets,
            weights: hyper_weights,
            marks: hyper_marks,
        },
        StateMemory {
            representatives,
            factors,
        },
        WorkMemory { numbers, elements },
    );
    let report = compiled.unwrap();
    write_listing(
        report,
        source.letters(),
        hyper_targets,
        hyper_weights,
        hyper_marks,
        out,
    )
}

// Lists a file of the kind, drawn in a book over the first three memories.
fn list_draft<W: Coded>(
    bytes: &[u8],
    targets: &mut [u16],
    weights: &mut [W],
    marks: &mut [u8],
    least_targets: &mut [u16],
    least_weights: &mut [W],
    least_marks: &mut [u8],
    hyper_targets: &mut [u16],
    hyper_weights: &mut [W],
    hyper_marks: &mut [u8],
    representatives: &mut [u16],
    factors: &mut [W],
    numbers: &mut [u16],
    elements: &mut [W],
    out: &mut [u8],
) -> usize
    requires book { BookPlaces targets.old weights.old marks.old }
    requires places { TablePlaces (memories least_targets.old least_weights.old least_marks.old hyper_targets.old hyper_weights.old hyper_marks.old representatives.old factors.old numbers.old elements.old) }
    requires room { 32768 ≤ length out.old }
    ensures { Lists (KindText W.kind W.codes bytes.now) out.old out.new result }
{
    let mut book = Book::open(targets, weights, marks);
    if let Err(fault) = read_draft(bytes, &mut book) {
        return put_refused(fault.refusal.number(), fault.offset, out);
    }
    let sheet = book.close();
    list_source(
        &sheet,
        least_targets,
        least_weights,
        least_marks,
        hyper_targets,
        hyper_weights,
        hyper_marks,
        representatives,
        factors,
        numbers,
        elements,
        out,
    )
}

// Lists a file with memories of elements like the given one. A macro, and no generic function: of a local array of a type parameter that is
// lent it is not proved that its places take less than 2 ^ 63 bytes.
macro_rules! list_in_arrays {
    ($element:expr, $bytes:expr, $out:expr) => {{
        let mut targets = [0u16; 1017];
        let mut weights = [$element; 1017];
        let mut marks = [0u8; 127];
        let mut least_targets = [0u16; 1081];
        let mut least_weights = [$element; 1081];
        let mut least_marks = [0u8; 128];
        let mut hyper_targets = [0u16; 1081];
        let mut hyper_weights = [$element; 1081];
        let mut hyper_marks = [0u8; 128];
        let mut representatives = [0u16; 128];
        let mut factors = [$element; 128];
        let mut numbers = [0u16; 3072];
        let mut elements = [$element; 768];
        list_draft(
            $bytes,
            &mut targets,
            &mut weights,
            &mut marks,
            &mut least_targets,
            &mut least_weights,
            &mut least_marks,
            &mut hyper_targets,
            &mut hyper_weights,
            &mut hyper_marks,
            &mut representatives,
            &mut factors,
            &mut numbers,
            &mut elements,
            $out,
        )
    }};
}

// Lists a file of plain weights.
fn list_plain(bytes: &[u8], out: &mut [u8]) -> usize
    requires { 32768 ≤ length out.old }
    ensures { Lists (KindText plain_kind plain_codes bytes.now) out.old out.new result }
{
    list_in_arrays!(Plain, bytes, out)
}

// Lists a file of check numbers.
fn list_check(bytes: &[u8], out: &mut [u8]) -> usize
    requires { 32768 ≤ length out.old }
    ensures { Lists (KindText check_kind check_codes bytes.now) out.old out.new result }
{
    list_in_arrays!(Check(1), bytes, out)
}

// Lists a file of wheel places.
fn list_wheel(bytes: &[u8], out: &mut [u8]) -> usize
    requires { 32768 ≤ length out.old }
    ensures { Lists (KindText wheel_kind wheel_codes bytes.now) out.old out.new result }
{
    list_in_arrays!(Wheel(0), bytes, out)
}

// Lists a file of beam wheel places.
fn list_beam_wheel(bytes: &[u8], out: &mut [u8]) -> usize
    requires { 32768 ≤ length out.old }
    ensures { Lists (KindText beam_wheel_kind beam_wheel_codes bytes.now) out.old out.new result }
{
    list_in_arrays!(BeamWheel(0), bytes, out)
}

// Lists a file, of the kind that its byte at offset 3 tells.
fn list_file(bytes: &[u8], out: &mut [u8]) -> usize
    requires { 32768 ≤ length out.old }
    ensures { Lists (FileText bytes.now) out.old out.new result }
{
    if bytes.len() > FILE_SIZE {
        return put_refused(Refusal::ShortMemory.number(), FILE_SIZE, out);
    }
    match FileKind::of(bytes) {
        FileKind::Plain => list_plain(bytes, out),
        FileKind::Check => list_check(bytes, out),
        FileKind::Wheel => list_wheel(bytes, out),
        FileKind::BeamWheel => list_beam_wheel(bytes, out),
    }
}

// Reads a draft file, draws its book, and writes the listing of the hyper table of the closed book over the front of `out`; the answer
// is the length of the listing, and the bytes after it stay. In place of the listing stands a line `refused N O` where the file is at
// fault, with the number of the refusal and the offset of the fault, and where it has more than 16,384 bytes, with 6 and 16384. The
// byte at offset 3 tells the kind, which is plain where the byte is missing or unknown. Refused by 6 is only an `out` of fewer than
// 32,768 bytes, in which nothing is written then.
pub fn hyper_listing(bytes: &[u8], out: &mut [u8]) -> Result<usize, Refusal>
    ensures { Answers bytes.now out.old out.new result }
{
    if out.len() < TEXT_SIZE {
        return Err(Refusal::ShortMemory);
    }
    Ok(list_file(bytes, out))
}
