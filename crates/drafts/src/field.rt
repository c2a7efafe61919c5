ghost use Rattle.std.specs.Prelude.{◌≡◌, ◌==◌, Err};
ghost use Rattle.drafts.specs.Fault.{faulted, malformed};
ghost use Rattle.drafts.specs.Field.{coded, head_field, state_field, arc_field, start_field, tagged_field, field_at};
ghost use Rattle.drafts.specs.Tag.{tag_byte};

use crate::fault::{Fault, Layer};
use crate::tag::{ARC_LENGTH, HEAD_LENGTH, START_LENGTH, STATE_LENGTH, Tag};
use tables::Call;
use weights::Coded;

// A field of a draft file: the call that it lists, and its length in bytes.
#[derive(Clone, Copy)]
pub(crate) struct Field<W> {
    pub(crate) call: Call<W>,
    pub(crate) length: usize,
}

// A field as it stands in a file: where its tag is, the tag, the length that it gives its content, and all that follows.
#[derive(Clone, Copy)]
struct Raw<'a> {
    offset: usize,
    tag: Tag,
    length: u16,
    content: &'a [u8],
}

impl Raw<'_> {
    // The fault of a field that is not well formed.
    fn malformed<W>(&self) -> Result<Field<W>, Fault>
        ensures { faulted result ≡ Err (malformed self.now.offset) }
    {
        Err(Fault::malformed(self.offset))
    }

    // The element of a code that the field has.
    fn weight<W: Coded>(&self, code: u16) -> Result<W, Fault>
        ensures { faulted result ≡ coded self.now.offset (W.codes.element code) }
    {
        let offset = self.offset;
        W::from_code(code).map_err(|refusal| Fault {
            layer: Layer::Weight,
            refusal,
            offset,
        })
    }

    // The head: the kind and the letters.
    fn head<W: Coded>(&self) -> Result<Field<W>, Fault>
        ensures { faulted result ≡ head_field W.codes self.now.offset self.now.length self.now.content.now }
    {
        match (self.length, self.content) {
            (2, [kind, letters, ..]) if *kind == W::kind_number() => Ok(Field {
                call: Call::Rule { letters: *letters },
                length: HEAD_LENGTH,
            }),
            _ => self.malformed(),
        }
    }

    // A state: 1 for final, or 0.
    fn state<W: Coded>(&self) -> Result<Field<W>, Fault>
        ensures { faulted result ≡ state_field self.now.offset self.now.length self.now.content.now }
    {
        match (self.length, self.content) {
            (1, [accepting, ..]) if *accepting <= 1 => Ok(Field {
                call: Call::State {
                    accepting: *accepting == 1,
                },
                length: STATE_LENGTH,
            }),
            _ => self.malformed(),
        }
    }

    // An arc: a state, a letter, a target and a code.
    fn arc<W: Coded>(&self) -> Result<Field<W>, Fault>
        ensures { faulted result ≡ arc_field W.codes self.now.offset self.now.length self.now.content.now }
    {
        let (7, [q1, q0, letter, r1, r0, c1, c0, ..]) = (self.length, self.content) else {
            return self.malformed();
        };
        Ok(Field {
            call: Call::Arc {
                from: u16::from_be_bytes([*q1, *q0]),
                letter: *letter,
                to: u16::from_be_bytes([*r1, *r0]),
                weight: self.weight(u16::from_be_bytes([*c1, *c0]))?,
            },
            length: ARC_LENGTH,
        })
    }

    // A start: a state and a code.
    fn start<W: Coded>(&self) -> Result<Field<W>, Fault>
        ensures { faulted result ≡ start_field W.codes self.now.offset self.now.length self.now.content.now }
    {
        let (4, [q1, q0, c1, c0, ..]) = (self.length, self.content) else {
            return self.malformed();
        };
        Ok(Field {
            call: Call::Start {
                state: u16::from_be_bytes([*q1, *q0]),
                weight: self.weight(u16::from_be_bytes([*c1, *c0]))?,
            },
            length: START_LENGTH,
        })
    }

    // The field, by its tag. The first of a file is a head, and no other is.
    fn field<W: Coded>(&self) -> Result<Field<W>, Fault>
        ensures { faulted result ≡ tagged_field W.codes (self.now.offset == 0) self.now.offset (tag_byte self.now.tag) self.now.length self.now.content.now }
    {
        match (self.offset, self.tag) {
            (0, Tag::Head) => self.head(),
            (0, _) | (_, Tag::Head) => self.malformed(),
            (_, Tag::State) => self.state(),
            (_, Tag::Arc) => self.arc(),
            (_, Tag::Start) => self.start(),
        }
    }
}

// The field that the bytes begin with, which stand at that offset of the file.
pub(crate) fn read_field<W: Coded>(offset: usize, bytes: &[u8]) -> Result<Field<W>, Fault>
    ensures { faulted result ≡ field_at W.codes (offset == 0) offset bytes.now }
{
    let [tag, high, low, content @ ..] = bytes else {
        return Err(Fault::malformed(offset));
    };
    let Ok(tag) = Tag::try_from(*tag) else {
        return Err(Fault::malformed(offset));
    };
    let raw = Raw {
        offset,
        tag,
        length: u16::from_be_bytes([*high, *low]),
        content,
    };
    raw.field()
}
