// The two tables of a source, read where they were compiled.
ghost use Rattle.std.specs.Prelude.{IfSome};
ghost use Rattle.tables.specs.Table.{WeighAlike};
ghost use Rattle.theory.specs.Series.{WeighAlikeFrom};
ghost use Rattle.minimize.specs.View.{viewed, view_table};

use minimize::{StateMemory, TableMemory, TableView, WorkMemory, compile};
use tables::Source;
use weights::Weight;

// What compiling a source left, as sources again, and from which length on the hyper table agrees.
struct Tables<'a, W> {
    least: TableView<'a, W>,
    hyper: TableView<'a, W>,
    agreement: u16,
}

// Two views: the least table, which weighs every word as the source does, and the hyper table, which weighs those of the agreement length
// or more so. None where `compile` refuses.
fn compiled_tables<'a, W: Weight, S: Source<W>>(
    source: &S,
    targets: &'a mut [u16],
    weights: &'a mut [W],
    marks: &'a mut [u8],
    hyper_targets: &'a mut [u16],
    hyper_weights: &'a mut [W],
    hyper_marks: &'a mut [u8],
    representatives: &mut [u16],
    factors: &mut [W],
    numbers: &mut [u16],
    elements: &mut [W],
) -> Option<Tables<'a, W>>
    ensures least { IfSome result (λ tables. WeighAlike W.kind.group (view_table W.kind (viewed tables.least)) (S.table source.now W.kind)) }
    ensures hyper { IfSome result (λ tables. WeighAlikeFrom W.kind.group tables.agreement (S.table source.now W.kind) (view_table W.kind (viewed tables.hyper))) }
{
    let report = compile(
        source,
        TableMemory {
            targets,
            weights,
            marks,
        },
        TableMemory {
            targets: hyper_targets,
            weights: hyper_weights,
            marks: hyper_marks,
        },
        StateMemory {
            representatives,
            factors,
        },
        WorkMemory { numbers, elements },
    )
    .ok()?;
    let letters = source.letters();
    let least = TableView::new(targets, weights, marks, report.least, letters);
    let hyper = TableView::new(
        hyper_targets,
        hyper_weights,
        hyper_marks,
        report.hyper,
        letters,
    );
    Some(Tables {
        least,
        hyper,
        agreement: report.agreement,
    })
}
