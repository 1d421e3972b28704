//! The moment that the host sets the clock to (SEMI E5, S2F31).
ghost use Rattle.std.specs.Prelude.{◌≡◌, option_map};
ghost use Rattle.civil_time.specs.Civil.{moment_in};
ghost use Rattle.gem_model.specs.Messages.{tiack};

use civil_time::moment_of;
use gem_ids::Moment;

/// TIACK: 0 where the text is a moment, else 1.
pub fn tiack(text: &[u8]) -> u8
    ensures { result ≡ tiack text.now }
{
    if moment_in(text).is_some() { 0 } else { 1 }
}

/// The moment that a text of any length says, if it says one.
pub fn moment_in(text: &[u8]) -> Option<Moment>
    ensures { option_map (λ m. m.0) result ≡ moment_in text.now }
{
    match <&[u8; 16]>::try_from(text) {
        Ok(digits) => moment_of(digits),
        Err(_) => None,
    }
}
