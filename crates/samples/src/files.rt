use drafts::{Fault, FileKind, Layer, read_draft};
use std::test::Fail;
use tables::{Book, Source, weigh};
use weights::{BeamWheel, Check, Coded, Refusal, Wheel};

// What reading a check draft answers, over a book of two letters and two states.
fn answer(bytes: &[u8]) -> Result<(), Fault> {
    let mut targets = [0u16; 5];
    let mut weights = [Check(1); 5];
    let mut marks = [0u8; 2];
    let mut book = Book::open(&mut targets, &mut weights, &mut marks);
    read_draft(bytes, &mut book)
}

fn fault(layer: Layer, refusal: Refusal, offset: usize) -> Result<(), Fault> {
    Err(Fault {
        layer,
        refusal,
        offset,
    })
}

fn bad_field(offset: usize) -> Result<(), Fault> {
    fault(Layer::File, Refusal::BadField, offset)
}

// Every way in which a field is not well formed.
#[test]
fn bad_fields_are_refused_with_7(rt: HostRuntime) {
    assert_eq!(rt; answer(&[]), bad_field(0), "empty");
    assert_eq!(rt; answer(&[1, 0]), bad_field(0), "cut off in the length");
    assert_eq!(rt;
        answer(&[1, 0, 2, 1]),
        bad_field(0),
        "cut off in the content"
    );
    assert_eq!(rt;
        answer(&[1, 0, 2, 1, 2, 5, 0, 0]),
        bad_field(5),
        "unknown tag"
    );
    assert_eq!(rt; answer(&[1, 0, 3, 1, 2, 0]), bad_field(0), "wrong length");
    assert_eq!(rt;
        answer(&[1, 1, 2, 1, 2]),
        bad_field(0),
        "wrong high byte of the length"
    );
    assert_eq!(rt; answer(&[2, 0, 1, 0]), bad_field(0), "no head");
    assert_eq!(rt;
        answer(&[1, 0, 2, 1, 2, 1, 0, 2, 1, 2]),
        bad_field(5),
        "two heads"
    );
    assert_eq!(rt; answer(&[1, 0, 2, 2, 2]), bad_field(0), "foreign kind");
    assert_eq!(rt;
        answer(&[1, 0, 2, 1, 2, 2, 0, 1, 2]),
        bad_field(5),
        "state byte above 1"
    );
    assert_eq!(rt; Refusal::BadField.number(), 7);
}

// Plain stands where the byte is missing, and where no kind has its number.
#[test]
fn the_byte_at_offset_3_tells_the_kind(rt: HostRuntime) {
    assert_eq!(rt; FileKind::of(&[1, 0, 2]), FileKind::Plain);
    assert_eq!(rt; FileKind::of(&[1, 0, 2, 0, 1]), FileKind::Plain);
    assert_eq!(rt; FileKind::of(&[1, 0, 2, 1, 1]), FileKind::Check);
    assert_eq!(rt; FileKind::of(&[1, 0, 2, 2, 1]), FileKind::Wheel);
    assert_eq!(rt; FileKind::of(&[1, 0, 2, 3, 1]), FileKind::BeamWheel);
    assert_eq!(rt; FileKind::of(&[1, 0, 2, 4, 1]), FileKind::Plain);
}

#[test]
fn a_book_of_one_wheel_refuses_files_of_the_other(rt: HostRuntime) {
    let wheel_file = [1, 0, 2, 2, 1];
    let beam_wheel_file = [1, 0, 2, 3, 1];
    let mut targets = [0u16; 2];
    let mut marks = [0u8; 1];
    let mut weights = [Wheel(0); 2];
    let mut book = Book::open(&mut targets, &mut weights, &mut marks);
    assert_eq!(rt; read_draft(&beam_wheel_file, &mut book), bad_field(0));
    assert_eq!(rt; read_draft(&wheel_file, &mut book), Ok(()));
    let mut weights = [BeamWheel(0); 2];
    let mut book = Book::open(&mut targets, &mut weights, &mut marks);
    assert_eq!(rt; read_draft(&wheel_file, &mut book), bad_field(0));
    assert_eq!(rt; read_draft(&beam_wheel_file, &mut book), Ok(()));
}

// A code comes before the book, and the book's refusal comes last.
#[test]
fn codes_come_before_the_book(rt: HostRuntime) {
    let bad_code = [1, 0, 2, 1, 2, 4, 0, 4, 0, 0, 1, 1];
    assert_eq!(rt; answer(&bad_code), fault(Layer::Weight, Refusal::NoCode, 5));
    let no_state = [1, 0, 2, 1, 2, 4, 0, 4, 0, 0, 1, 0];
    assert_eq!(rt; answer(&no_state), fault(Layer::Book, Refusal::NoState, 5));
    let many_letters = [1, 0, 2, 1, 65];
    assert_eq!(rt;
        answer(&many_letters),
        fault(Layer::Book, Refusal::Letters, 0)
    );
    let no_letter = [1, 0, 2, 1, 2, 2, 0, 1, 1, 3, 0, 7, 0, 0, 2, 0, 0, 0, 1];
    assert_eq!(rt;
        answer(&no_letter),
        fault(Layer::Book, Refusal::NoLetter, 9)
    );
    let no_room = [1, 0, 2, 1, 3, 2, 0, 1, 1, 2, 0, 1, 1];
    assert_eq!(rt; answer(&no_room), fault(Layer::Book, Refusal::NoRoom, 9));
}

// One final state that letter 0 leads back to; then a field that is refused, and one that is not read any more.
#[test]
fn the_fields_before_a_refused_one_stay(rt: HostRuntime) -> Result<(), Fail> {
    let mut targets = [0u16; 5];
    let mut weights = [Check(1); 5];
    let mut marks = [0u8; 2];
    let mut book = Book::open(&mut targets, &mut weights, &mut marks);
    let bytes =
        b"\x01\0\x02\x01\x02\x02\0\x01\x01\x03\0\x07\0\0\0\0\0\0\x03\x04\0\x04\0\0\x01\0\x04\0\x04\0\x01\0\x01\x02\0\x01\x01";
    assert_eq!(rt;
        read_draft(bytes, &mut book),
        fault(Layer::Book, Refusal::NoState, 26)
    );
    let sheet = book.close();
    assert_eq!(rt; sheet.states(), 2);
    assert_eq!(rt; weigh(&sheet, &[0])?.ok_or("none")?.code(), 254);
    Ok(())
}
