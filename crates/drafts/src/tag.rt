ghost use Rattle.drafts.specs.Tag.{Decodes};

// The first byte of a field, by which it says what it lists. The byte is the discriminant, so `as u8` gives it; a `From` would say
// no more.
#[derive(Clone, Copy, PartialEq, Eq, Debug)]
pub(crate) enum Tag {
    Head = 1,
    State = 2,
    Arc = 3,
    Start = 4,
}

// How long a field of each tag is, with the tag and the two bytes of its length. The reader and the writer write the length of
// the content as a number, beside the bytes that it counts.
pub(crate) const HEAD_LENGTH: usize = 5;

pub(crate) const STATE_LENGTH: usize = 4;

pub(crate) const ARC_LENGTH: usize = 10;

pub(crate) const START_LENGTH: usize = 7;

// A byte that is no tag.
#[derive(Clone, Copy, PartialEq, Eq, Debug)]
pub(crate) struct UnknownTag;

impl TryFrom<u8> for Tag {
    type Error = UnknownTag;

    ghost try_from_gives = { Decodes };

    fn try_from(byte: u8) -> Result<Self, UnknownTag> {
        match byte {
            1 => Ok(Tag::Head),
            2 => Ok(Tag::State),
            3 => Ok(Tag::Arc),
            4 => Ok(Tag::Start),
            _ => Err(UnknownTag),
        }
    }
}
