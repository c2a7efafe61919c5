ghost use Rattle.std.specs.Prelude.{◌≡◌, Some, slice_get};
ghost use Rattle.drafts.specs.FileKind.{known, kind_of};

use std::fmt;
use weights::{BeamWheel, Check, Coded, Plain, Wheel};

// The kind of weights that a draft file has.
#[derive(Clone, Copy, PartialEq, Eq, Debug)]
pub enum FileKind {
    Plain,
    Check,
    Wheel,
    BeamWheel,
}

impl FileKind {
    // The kind of a file, by its byte at offset 3; plain where that is missing or unknown.
    pub fn of(bytes: &[u8]) -> FileKind
        ensures { result ≡ kind_of (slice_get bytes.now 3) }
    {
        match bytes.get(3) {
            Some(kind) if *kind == Check::kind_number() => FileKind::Check,
            Some(kind) if *kind == Wheel::kind_number() => FileKind::Wheel,
            Some(kind) if *kind == BeamWheel::kind_number() => FileKind::BeamWheel,
            _ => FileKind::Plain,
        }
    }

    // The number that a file names the kind by; a file with that byte is of the kind.
    pub fn number(self) -> u8
        ensures number { result ≡ (known self).number }
        ensures read { kind_of (Some result) ≡ self }
    {
        match self {
            FileKind::Plain => Plain::kind_number(),
            FileKind::Check => Check::kind_number(),
            FileKind::Wheel => Wheel::kind_number(),
            FileKind::BeamWheel => BeamWheel::kind_number(),
        }
    }

    // The word by which the kind is known.
    pub fn name(self) -> &'static str
        ensures { result.now ≡ (known self).word }
    {
        match self {
            FileKind::Plain => "plain",
            FileKind::Check => "check",
            FileKind::Wheel => "wheel",
            FileKind::BeamWheel => "beam wheel",
        }
    }
}

impl fmt::Display for FileKind {
    ghost output = { λ kind. Some (known kind).word };

    fn fmt<W: fmt::Write>(&self, f: &mut fmt::Formatter<W>) -> fmt::Result {
        f.write_str(self.name())
    }
}
