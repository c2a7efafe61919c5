use crate::kind::Kind;
use crate::reading::{Drawing, Reading, Refused, read};
use reference::{Compiled, compile_by_definition};
use std::alloc::{AllocError, Global};
use std::fmt::Write;
use tables::Sheet;
use weights::{BeamWheel, Check, Coded, Plain, Wheel};

// The text that belongs to a file, and the number by which it is refused, or 0.
#[derive(Drop)]
pub(crate) struct Wanted {
    pub(crate) text: String,
    pub(crate) number: u8,
    // the hyper table has fewer states than the least one
    pub(crate) is_smaller: bool,
}

impl Wanted {
    pub(crate) fn of(bytes: &[u8], alloc: Global) -> anyhow::Result<Wanted> {
        match read(bytes, alloc)? {
            Reading::Refused(refused) => Ok(refused_text(refused, alloc)?),
            Reading::Drawn(drawing) => match drawing.kind {
                Kind::Plain => listing::<Plain>(&drawing, alloc),
                Kind::Check => listing::<Check>(&drawing, alloc),
                Kind::Wheel => listing::<Wheel>(&drawing, alloc),
                Kind::BeamWheel => listing::<BeamWheel>(&drawing, alloc),
            },
        }
    }
}

fn refused_text(refused: Refused, alloc: Global) -> Result<Wanted, AllocError> {
    let Refused { number, offset } = refused;
    let text = format!(in alloc; "refused {number} {offset}\n")?;
    Ok(Wanted {
        text,
        number,
        is_smaller: false,
    })
}

// The listing of the hyper table of a drawing. The off state is laid out as one more state, so that the sheet's own is not reached.
fn listing<W: Coded>(drawing: &Drawing, alloc: Global) -> anyhow::Result<Wanted> {
    let off = drawing.count();
    let mut targets = Vec::new(alloc);
    let mut weights = Vec::new(alloc);
    let mut marks = Vec::new(alloc);
    let start = drawing.start();
    targets.push(start.to)?;
    weights.push(W::from_code(start.code)?)?;
    for state in 0..=off {
        for letter in 0..drawing.letters {
            let arc = drawing.arc(state, letter);
            targets.push(arc.to)?;
            weights.push(W::from_code(arc.code)?)?;
        }
    }
    for is_final in drawing.states.iter() {
        marks.push(u8::from(*is_final))?;
    }
    marks.push(0)?;
    let count = off.saturating_add(1);
    let sheet = Sheet::new(&targets, &weights, &marks, count, drawing.letters)?;
    let compiled = compile_by_definition(&sheet, alloc)?;
    Ok(Wanted {
        text: compiled_text(&compiled, alloc)?,
        number: 0,
        is_smaller: compiled.hyper.states.len() < compiled.least.states.len(),
    })
}

fn compiled_text<W: Coded>(compiled: &Compiled<W>, alloc: Global) -> Result<String, AllocError> {
    let mut text = String::new(alloc);
    let least = compiled.least.states.len();
    let hyper = compiled.hyper.states.len();
    let kernel = compiled.kernel_count;
    let agree = compiled.agreement;
    let start = compiled.hyper.start;
    let code = compiled.hyper.start_weight.code();
    writeln!(text, "least {least}")?;
    writeln!(text, "hyper {hyper}")?;
    writeln!(text, "kernel {kernel}")?;
    writeln!(text, "agree {agree}")?;
    writeln!(text, "start {start} {code}")?;
    for (number, state) in compiled.hyper.states.iter().enumerate() {
        let word = if state.is_final { "final" } else { "no" };
        writeln!(text, "state {number} {word}")?;
    }
    for (number, state) in compiled.hyper.states.iter().enumerate() {
        for (letter, arc) in state.arcs.iter().enumerate() {
            let target = arc.target;
            let code = arc.weight.code();
            writeln!(text, "arc {number} {letter} {target} {code}")?;
        }
    }
    Ok(text)
}
