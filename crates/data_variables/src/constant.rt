//! The table of the equipment constants.

ghost use Rattle.std.specs.Prelude.{◌≡◌, codes, unwrap_or, [], true, false};
ghost use Rattle.gem_ids.specs.Texts.{IsText};
ghost use Rattle.gem_rows.specs.Variables.{vid_name};
ghost use Rattle.data_variables.specs.declared.val.Val.TheVariants.{Number, Truth};
ghost use Rattle.data_variables.specs.Table.{constant, constant_ids, constant_of, takes, is_allowed};

use crate::val::Val;
use gem_ids::Text80;
use gem_rows::{ecids, vid_name};

/// An equipment constant, as its line of the table says: the least value, the most and the default are of one kind.
#[derive(Clone, Copy)]
pub struct Constant {
    pub ecid: u32,
    pub name: Text80,
    pub least: Val,
    pub most: Val,
    pub default: Val,
    pub units: Text80,
}

/// The ECIDs of all constants, as printed.
pub fn ids() -> [u32; 7]
    ensures { result ≡ constant_ids }
{
    ecids::ALL
}

// The line of an ECID. `None` exactly where there is no such constant.
pub(crate) fn constant_of(ecid: u32) -> Option<Constant>
    ensures { result ≡ constant_of ecid }
{
    let line = match ecid {
        ecids::ESTABLISH_TIMEOUT => number(ecid, 1, 60_000, 1000, b"cs"),
        ecids::MAX_SPOOL_TRANSMIT => number(ecid, 0, 65_536, 0, b""),
        ecids::OVERWRITE_SPOOL => truth(ecid),
        ecids::T3 => number(ecid, 100, 12_000, 4500, b"cs"),
        ecids::T7 => number(ecid, 100, 12_000, 1000, b"cs"),
        ecids::T6 => number(ecid, 100, 12_000, 500, b"cs"),
        ecids::LINKTEST_PERIOD => number(ecid, 0, 60_000, 0, b"cs"),
        _ => return None,
    };
    Some(line)
}

impl Constant {
    // Whether the value is of the constant's kind and in its range.
    pub(crate) fn takes(&self, value: Val) -> bool
        ensures { result ≡ takes self.now value }
    {
        match (self.least, self.most, value) {
            (Val::Number(least), Val::Number(most), Val::Number(n)) => least <= n && n <= most,
            (Val::Truth(_), Val::Truth(_), Val::Truth(_)) => true,
            _ => false,
        }
    }
}

// A constant that is a number.
fn number(ecid: u32, least: u32, most: u32, default: u32, units: &[u8]) -> Constant
    requires { IsText units.now }
    ensures { result ≡ constant ecid (unwrap_or (vid_name ecid) []) (Number least) (Number most) (Number default) units.now }
{
    Constant {
        ecid,
        name: name_of(ecid),
        least: Val::Number(least),
        most: Val::Number(most),
        default: Val::Number(default),
        units: Text80::read(units).unwrap_or(Text80::empty()),
    }
}

// A constant that is a truth value, whose default is false.
fn truth(ecid: u32) -> Constant
    ensures { result ≡ constant ecid (unwrap_or (vid_name ecid) []) (Truth false) (Truth true) (Truth false) [] }
{
    Constant {
        ecid,
        name: name_of(ecid),
        least: Val::Truth(false),
        most: Val::Truth(true),
        default: Val::Truth(false),
        units: Text80::empty(),
    }
}

// The name of the constant, which is a variable too.
fn name_of(ecid: u32) -> Text80
    ensures { result ≡ unwrap_or (vid_name ecid) [] }
{
    vid_name(ecid).unwrap_or(Text80::empty())
}
