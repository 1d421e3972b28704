//! An arrow of a table.

ghost use Rattle.std.specs.Prelude.{◌≡◌, Some, None, if◌then◌else◌};
ghost use Rattle.state_arrows.specs.Arrows.{arrow};

/// An arrow of a transition table: the number of its row, of the state in which the row starts, and of the state to which it leads. A
/// row that creates an object comes from no state, and one with which the object ends leads to none.
#[derive(Clone, Copy, PartialEq, Eq)]
pub struct Arrow {
    pub row: u8,
    pub from: Option<u8>,
    pub to: Option<u8>,
}

/// The arrow of a row from one state to another, where the row starts.
pub(crate) fn arrow_where(starts: bool, row: u8, from: u8, to: u8) -> Option<Arrow>
    ensures { result ≡ (if starts then Some (arrow row (Some from) (Some to)) else None) }
{
    if starts {
        Some(Arrow {
            row,
            from: Some(from),
            to: Some(to),
        })
    } else {
        None
    }
}

/// The arrow of row 1, which creates an object in a state.
pub(crate) fn creation(state: u8) -> Option<Arrow>
    ensures { result ≡ Some (arrow 1 None (Some state)) }
{
    Some(Arrow {
        row: 1,
        from: None,
        to: Some(state),
    })
}
