//! The arrows of a table, gathered from the answers of its states.

ghost use Rattle.std.specs.Prelude.{◌≡◌, ◌++◌, IfOk, OnOk, filter_map, option_to_list};
ghost use Rattle.state_arrows.specs.Arrows.{gathered};

use crate::arrow::Arrow;
use crate::asked::Asked;
use std::alloc::{AllocError, Global};

// Appends the arrows of a row.
fn push_row<T: Asked>(row: u8, states: &[T], arrows: &mut Vec<Arrow>) -> Result<(), AllocError>
    ensures { OnOk result (arrows.new.items ≡ arrows.old.items ++ filter_map (T.answer row) states.now) }
{
    for state in states {
        if let Some(arrow) = state.ask(row) {
            arrows.push(arrow)?;
        }
    }
    Ok(())
}

/// The arrow of the row that creates an object, where there is one, and those of rows 1 to `rows` from these states. `AllocError` where
/// there is no memory.
pub(crate) fn gather<T: Asked>(
    alloc: Global,
    created: Option<Arrow>,
    rows: u8,
    states: &[T],
) -> Result<Vec<Arrow>, AllocError>
    ensures { IfOk result (λ arrows. arrows.items ≡ option_to_list created ++ gathered T.answer states.now rows) }
{
    let mut arrows = Vec::new(alloc);
    if let Some(arrow) = created {
        arrows.push(arrow)?;
    }
    for index in 0..rows {
        push_row(index + 1, states, &mut arrows)?;
    }
    Ok(arrows)
}
