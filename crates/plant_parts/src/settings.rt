//! The constants that the host sets (SEMI E5, S2F15).

ghost use Rattle.std.specs.Prelude.{◌≡◌, IfOk};
ghost use Rattle.data_variables.specs.Bodies.{val_in};
ghost use Rattle.gem_model.specs.Messages.{settings_of};

use data_variables::{Val, set_of};
use message_model::Setting;
use std::alloc::{AllocError, Global};

// The constant that a part of S2F15 sets, with the value that its item says.
fn setting_of(setting: &Setting) -> (u32, Option<Val>)
    ensures { result ≡ (setting.now.0, val_in setting.now.0 setting.now.1) }
{
    let ecid = setting.ecid();
    (ecid, set_of(ecid, setting.item()))
}

/// The constants that S2F15 sets, each with the value that its item says.
pub fn settings_of(
    alloc: Global,
    settings: &[Setting],
) -> Result<Vec<(u32, Option<Val>)>, AllocError>
    ensures { IfOk result (λ sets. sets.items ≡ settings_of settings.now) }
{
    let mut sets = Vec::new(alloc);
    for setting in settings {
        sets.push(setting_of(setting))?;
    }
    Ok(sets)
}
