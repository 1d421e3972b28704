//! The arrows of table 3: of the spool as it fills and as it is emptied, and of what becomes of a note. Its rows want more of the line of
//! notes than such a state, so they are listed here, and `laws` says that they are those of the table.

ghost use Rattle.std.specs.Prelude.{◌≡◌, Some, None, IfOk};
ghost use Rattle.state_arrows.specs.Arrows.{arrow};
ghost use Rattle.state_charts.specs.TableThree.{load_arrows, unload_arrows, note_arrows};

use state_arrows::Arrow;
use std::alloc::{AllocError, Global};

// The arrow of a row between two states.
fn between(row: u8, from: u8, to: u8) -> Arrow
    ensures { result ≡ arrow row (Some from) (Some to) }
{
    Arrow {
        row,
        from: Some(from),
        to: Some(to),
    }
}

// A note is made.
fn making() -> Arrow
    ensures { result ≡ arrow 0 None (Some 0) }
{
    Arrow {
        row: 0,
        from: None,
        to: Some(0),
    }
}

/// The arrows between the states of the filling.
pub(crate) fn spool_load(alloc: Global) -> Result<Vec<Arrow>, AllocError>
    ensures { IfOk result (λ arrows. arrows.items ≡ load_arrows) }
{
    let arrows = [
        between(1, 0, 1),
        between(2, 1, 2),
        between(3, 2, 1),
        between(9, 1, 0),
        between(9, 2, 0),
    ];
    Vec::from_slice(alloc, &arrows)
}

/// The arrows between the states of the emptying.
pub(crate) fn spool_unload(alloc: Global) -> Result<Vec<Arrow>, AllocError>
    ensures { IfOk result (λ arrows. arrows.items ≡ unload_arrows) }
{
    let arrows = [
        between(4, 0, 1),
        between(5, 0, 2),
        between(7, 1, 0),
        between(8, 1, 0),
        between(9, 1, 0),
        between(9, 2, 0),
        between(14, 1, 0),
    ];
    Vec::from_slice(alloc, &arrows)
}

/// The arrows between what becomes of a note. That a note is made, and that it is answered, is no row: both are told as row 0.
pub(crate) fn notes(alloc: Global) -> Result<Vec<Arrow>, AllocError>
    ensures { IfOk result (λ arrows. arrows.items ≡ note_arrows) }
{
    let arrows = [
        making(),
        between(0, 2, 3),
        between(6, 1, 4),
        between(10, 0, 1),
        between(10, 0, 4),
        between(10, 1, 4),
        between(11, 0, 4),
        between(12, 1, 2),
        between(13, 0, 2),
        between(14, 2, 1),
        between(14, 2, 4),
        between(14, 1, 4),
    ];
    Vec::from_slice(alloc, &arrows)
}
