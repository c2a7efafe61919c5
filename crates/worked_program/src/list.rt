use std::alloc::Global;
use tables::{Call, Made};
use weights::{Coded, Refusal};

// The call with the element that its code makes.
fn call_of<W: Coded>(call: Call<u16>) -> Result<Call<W>, Refusal> {
    Ok(match call {
        Call::Rule { letters } => Call::Rule { letters },
        Call::State { accepting } => Call::State { accepting },
        Call::Arc {
            from,
            letter,
            to,
            weight,
        } => Call::Arc {
            from,
            letter,
            to,
            weight: W::from_code(weight)?,
        },
        Call::Start { state, weight } => Call::Start {
            state,
            weight: W::from_code(weight)?,
        },
    })
}

// The list of calls that are named by codes.
pub(crate) fn list_of<W: Coded>(
    calls: &[Call<u16>],
    alloc: Global,
) -> anyhow::Result<Vec<Made<W>>> {
    let mut list = Vec::new(alloc);
    for call in calls {
        list.push(Made::new(call_of(*call)?))?;
    }
    Ok(list)
}

// How many calls of a list were taken.
pub(crate) fn taken<W: Coded>(list: &[Made<W>]) -> usize {
    list.iter().filter(|one| one.answer == Some(Ok(()))).count()
}
