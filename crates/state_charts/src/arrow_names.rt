//! The names of arrows, by which a picture tells them.

ghost use Rattle.std.specs.Prelude.{◌≡◌, ◌++◌, true, IfOk, OnOk};
ghost use Rattle.std.specs.Fmt.{decimal};
ghost use Rattle.picture_svg.specs.Arrows.{is_name};
ghost use Rattle.state_charts.specs.Names.{arrow_name, end_name};

use state_arrows::Arrow;
use std::alloc::{AllocError, Global};

// The digits of a number.
fn digits_of(alloc: Global, number: u8) -> Result<Vec<u8>, AllocError>
    ensures { IfOk result (λ digits. digits.items ≡ decimal number) }
{
    Ok(format!(in alloc; "{number}")?.into_bytes())
}

// Adds a number.
fn add_number(alloc: Global, number: u8, name: &mut Vec<u8>) -> Result<(), AllocError>
    ensures digits { OnOk result (name.new.items ≡ name.old.items ++ decimal number) }
    ensures is_name { OnOk result (is_name name.old.items ≡ true → is_name name.new.items ≡ true) }
{
    let digits = digits_of(alloc, number)?;
    name.extend_from_slice(digits.as_slice())
}

// Adds an end of an arrow, behind a word, where it is a state.
#[tactic(auto, using(crate::proofs::Digits::append_named))]
fn add_end(
    alloc: Global,
    word: &[u8],
    end: Option<u8>,
    name: &mut Vec<u8>,
) -> Result<(), AllocError>
    requires { is_name word.now ≡ true }
    ensures ending { OnOk result (name.new.items ≡ name.old.items ++ end_name word.now end) }
    ensures is_name { OnOk result (is_name name.old.items ≡ true → is_name name.new.items ≡ true) }
{
    match end {
        Some(state) => {
            name.extend_from_slice(word)?;
            add_number(alloc, state, name)
        }
        None => Ok(()),
    }
}

/// The name of an arrow: the number of its row, and those of the states from which it comes and to which it leads.
pub(crate) fn name_of(alloc: Global, arrow: &Arrow) -> Result<Vec<u8>, AllocError>
    ensures name { IfOk result (λ name. name.items ≡ arrow_name arrow.now) }
    ensures is_name { IfOk result (λ name. is_name name.items ≡ true) }
{
    let mut name = Vec::new(alloc);
    name.extend_from_slice(b"row ")?;
    add_number(alloc, arrow.row, &mut name)?;
    add_end(alloc, b" from ", arrow.from, &mut name)?;
    add_end(alloc, b" to ", arrow.to, &mut name)?;
    Ok(name)
}
