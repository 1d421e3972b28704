//! How the tool begins (this tool's profile, configuration).

ghost use Rattle.std.specs.Prelude.{◌≡◌, IfOk};
ghost use Rattle.tool_events.specs.Configs.{IsConfig};
ghost use Rattle.gem_model.specs.State.{first_comm, first_control, first_switch, first_constants, first_kinds};

use data_variables::{Constants, Val};
use gem_rows::ecids;
use gem_states::{Comm, Control};
use note_line::SpooledKinds;
use std::alloc::{AllocError, Global};
use tool_events::{CommStart, Config, ControlStart, SpoolStreams};

/// The first state of communication; in WAIT DELAY the delay is over.
pub fn first_comm(start: CommStart) -> Comm
    ensures { result ≡ first_comm start }
{
    match start {
        CommStart::Disabled => Comm::Disabled,
        CommStart::Enabled => Comm::WaitDelay { until: 0 },
        CommStart::Communicating => Comm::Communicating,
    }
}

/// The first state of control.
pub fn first_control(start: ControlStart) -> Control
    ensures { result ≡ first_control start }
{
    match start {
        ControlStart::EquipmentOffline => Control::EquipmentOffline,
        ControlStart::HostOffline => Control::HostOffline,
        ControlStart::OnlineLocal => Control::Local,
        ControlStart::OnlineRemote => Control::Remote,
    }
}

/// Whether the switch begins at local.
pub fn first_switch(start: ControlStart) -> bool
    ensures { result ≡ first_switch start }
{
    start == ControlStart::OnlineLocal
}

/// The kinds of note that are spooled at first: of stream 5 alarms, and of stream 6 events.
pub fn first_kinds(streams: SpoolStreams) -> SpooledKinds
    ensures { result ≡ first_kinds streams }
{
    SpooledKinds {
        events: streams.six,
        alarms: streams.five,
    }
}

/// The constants that a configuration gives.
pub fn first_constants(alloc: Global, config: &Config) -> Result<Constants, AllocError>
    requires { IsConfig config.now }
    ensures { IfOk result (λ constants. constants ≡ first_constants config.now) }
{
    Constants::new(
        alloc,
        &[
            (ecids::ESTABLISH_TIMEOUT, Val::Number(config.establish)),
            (ecids::MAX_SPOOL_TRANSMIT, Val::Number(config.max_transmit)),
            (ecids::OVERWRITE_SPOOL, Val::Truth(config.overwrite)),
            (ecids::T3, Val::Number(config.t3)),
            (ecids::T7, Val::Number(config.t7)),
            (ecids::T6, Val::Number(config.t6)),
            (ecids::LINKTEST_PERIOD, Val::Number(config.linktest)),
        ],
    )
}
