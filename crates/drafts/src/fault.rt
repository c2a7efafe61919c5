ghost use Rattle.std.specs.Prelude.{◌≡◌, Some};
ghost use Rattle.drafts.specs.Fault.{layer_name, blame, malformed, fault_text};

use std::error::Error;
use std::fmt;
use weights::Refusal;

// Where a draft file was refused.
#[derive(Clone, Copy, PartialEq, Eq, Debug)]
pub enum Layer {
    // the bytes of a field
    File,
    // the code of a weight
    Weight,
    // the call on the book
    Book,
}

impl Layer {
    // The word by which the layer is known.
    pub fn name(self) -> &'static str
        ensures { result.now ≡ layer_name self }
    {
        match self {
            Layer::File => "file",
            Layer::Weight => "weight",
            Layer::Book => "book",
        }
    }
}

impl fmt::Display for Layer {
    ghost output = { λ layer. Some (layer_name layer) };

    fn fmt<W: fmt::Write>(&self, f: &mut fmt::Formatter<W>) -> fmt::Result {
        f.write_str(self.name())
    }
}

// Why and where the reading of a draft file ended: the offset is that of the field's tag.
#[derive(Clone, Copy, PartialEq, Eq, Debug)]
pub struct Fault {
    pub layer: Layer,
    pub refusal: Refusal,
    pub offset: usize,
}

impl Fault {
    // The fault of a field that is not well formed.
    pub(crate) fn malformed(offset: usize) -> Fault
        ensures { blame result ≡ malformed offset }
    {
        Fault {
            layer: Layer::File,
            refusal: Refusal::BadField,
            offset,
        }
    }
}

impl fmt::Display for Fault {
    ghost output = { λ fault. Some (fault_text fault) };

    fn fmt<W: fmt::Write>(&self, f: &mut fmt::Formatter<W>) -> fmt::Result {
        write!(
            f,
            "layer {}, number {}, offset {}",
            self.layer,
            self.refusal.number(),
            self.offset
        )
    }
}

impl Error for Fault {}
