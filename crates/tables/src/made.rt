ghost use Rattle.std.specs.Prelude.{◌≡◌, None};

use crate::call::Call;
use weights::Refusal;

// A call of a list, with the place where its answer is written: there is none until the call is made.
#[derive(Clone, Copy)]
pub struct Made<W> {
    pub call: Call<W>,
    pub answer: Option<Result<(), Refusal>>,
}

impl<W> Made<W> {
    // A call that is not made yet.
    pub fn new(call: Call<W>) -> Made<W>
        ensures call { result.call ≡ call }
        ensures answer { result.answer ≡ None }
    {
        Made { call, answer: None }
    }
}
