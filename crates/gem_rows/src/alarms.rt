//! The alarms: which there are, and their texts.

ghost use Rattle.std.specs.Prelude.{◌≡◌, ◌+◌, ◌<◌, ◌&&◌, ◌++◌, IfOk, nat_le, nat_lt};
ghost use Rattle.gem_rows.specs.Alarms.{alarm_text, alids};
ghost use Rattle.gem_rows.specs.Events.{numbers_from};

use crate::names::{name, numbered};
use gem_ids::{Ids, ModuleId, PortNo, Text80};
use std::alloc::{AllocError, Global};

// The alarms of modules stand behind this number, and there are at most ten.
const MODULES: u32 = 10;

const FIRST_MODULE: u32 = MODULES + 1;

const LAST_MODULE: u32 = MODULES + 10;

// The alarms of ports stand behind this number, and there are at most four.
const PORTS: u32 = 30;

const FIRST_PORT: u32 = PORTS + 1;

const LAST_PORT: u32 = PORTS + 4;

/// The alarm of an answer to a command that isn't open.
pub const UNEXPECTED_ANSWER: u32 = 50;

/// The alarm of a module that is down.
pub fn module_alarm(m: ModuleId) -> u32
    ensures { result ≡ 10 + m.0 }
{
    MODULES + u32::from(m.0)
}

/// Whether an alarm is that of a module.
pub fn is_module_alarm(alid: u32) -> bool
    ensures { result ≡ (nat_lt 10 alid && nat_le alid 20) }
{
    MODULES < alid && alid <= LAST_MODULE
}

/// The alarm of a carrier signal that a port doesn't expect.
pub fn port_alarm(port: PortNo) -> u32
    ensures { result ≡ 30 + port.0 }
{
    PORTS + u32::from(port.0)
}

/// The text of an alarm (SEMI E5, ALTX). `None` exactly where no plant has it; modules are 1 to 10 here, and ports 1 to
/// 4. Takes no memory.
pub fn alarm_text(alid: u32) -> Option<Text80>
    ensures { result ≡ alarm_text alid }
{
    match alid {
        FIRST_MODULE..=LAST_MODULE => numbered(b"module ", alid - MODULES, b" down"),
        FIRST_PORT..=LAST_PORT => {
            numbered(b"port ", alid - PORTS, b" unexpected carrier signal")
        }
        UNEXPECTED_ANSWER => name(b"unexpected command answer"),
        _ => None,
    }
}

/// The alarms of a plant of so many ports and chambers, rising: those of its modules, which are robot, aligner and the
/// chambers, of its ports, and that of command answers. On want of memory there is no list.
pub fn alids(alloc: Global, ports: u8, chambers: u8) -> Result<Ids, AllocError>
    ensures { IfOk result (λ ids. ids ≡ alids ports chambers) }
{
    let mut ids = Ids::new(alloc);
    push_behind(&mut ids, MODULES, 2 + u32::from(chambers))?;
    push_behind(&mut ids, PORTS, u32::from(ports))?;
    ids.push(UNEXPECTED_ANSWER)?;
    Ok(ids)
}

// Puts so many numbers behind the base at the end of a list.
fn push_behind(ids: &mut Ids, base: u32, count: u32) -> Result<(), AllocError>
    requires { base + count < 1000 }
    ensures { IfOk result (λ _. ids.new ≡ ids.old ++ numbers_from (base + 1) count) }
{
    for number in 0..count {
        ids.push(base + 1 + number)?;
    }
    Ok(())
}
