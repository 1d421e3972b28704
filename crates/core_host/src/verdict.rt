//! The verdict on a data message of the host by the rules that come before it is read (SEMI E5, streams and functions; SEMI E30,
//! communication and control).
ghost use Rattle.std.specs.Prelude.{◌≡◌, option_map};
ghost use Rattle.gem_tables.specs.Table.{choose};
ghost use Rattle.gem_model.specs.Verdict.{stream_of, function_of, may_establish, is_establish, first_rules};
ghost use Rattle.transactions.specs.Endings.{answered};
ghost use Rattle.core_host.specs.Rules.{rule_view};

use core_state::Plant;
use gem_states::Comm;
use host_messages::{is_message, stream_of};
use hsms_frame::Header;
use transactions::What;

/// What a data message does by a rule that comes before it is read: nothing; it is told by a message of stream 9 of this function;
/// it is answered by function 0 of its stream; or it answers a transaction of the tool, if that is open.
#[derive(Clone, Copy)]
pub enum Rule {
    Discarded,
    Stream9(u8),
    Aborted,
    Answers,
}

/// Whether a message may establish communication: S1F13, or S1F14 or S1F0 that answers the tool's S1F13.
fn may_establish(plant: &Plant, header: &Header) -> bool
    ensures { result ≡ may_establish plant.now header.now }
{
    is_message(1, 13, header) || answers_establish(plant, header)
}

/// Whether a message answers the tool's S1F13.
fn answers_establish(plant: &Plant, header: &Header) -> bool
    ensures { result ≡ is_establish (answered header.now.system (stream_of header.now) (function_of header.now) plant.now.transactions.opened) }
{
    match plant.find_transaction(header.system, stream_of(header), header.byte3) {
        Some(one) => matches!(one.what, What::Establish),
        None => false,
    }
}

/// What a data message does by the first rule that fits of those that come before it is read, by the plant before it.
pub fn first_rule(plant: &Plant, header: &Header, too_long: bool) -> Option<Rule>
    ensures { option_map rule_view result ≡ choose (first_rules plant.now header.now too_long) }
{
    if plant.comm() == Comm::Disabled {
        Some(Rule::Discarded)
    } else if !plant.is_communicating() && !may_establish(plant, header) {
        Some(Rule::Discarded)
    } else if header.session != plant.config().device {
        Some(Rule::Stream9(1))
    } else if too_long {
        Some(Rule::Stream9(11))
    } else if stream_of(header) == 9 {
        Some(Rule::Discarded)
    } else if header.byte3 % 2 == 0 {
        Some(Rule::Answers)
    } else if !plant.is_online() && !(is_message(1, 13, header) || is_message(1, 17, header)) {
        Some(Rule::Aborted)
    } else {
        None
    }
}
