//! Which notes the host has spooled (SEMI E5, S2F43; SEMI E30, spooling).
ghost use Rattle.std.specs.Prelude.{◌≡◌, map, OnOk, IfOk};
ghost use Rattle.message_model.specs.declared.gem_primary.SpooledStream.{SpooledStream};
ghost use Rattle.message_model.specs.declared.gem_reply.GemReply.TheVariants as reply;
ghost use Rattle.message_model.specs.Functions.{AreFewFunctions};
ghost use Rattle.message_model.specs.GemSendable.{HasSendableParts};
ghost use Rattle.gem_model.specs.Spooling.{refusals, rspack, spools};

use core_state::Plant;
use gem_ids::Listed;
use host_messages::{kinds_of, refusals};
use message_model::{GemReply, SpooledStream};
use std::alloc::{AllocError, Global};

/// What S2F43 is answered, by the plant before it: RSPACK 1 where the spool is ACTIVE, and where an entry is refused, with
/// the refusals. With RSPACK 0 the notes of these streams are spooled, and no others.
pub fn spool_streams(
    plant: &mut Plant,
    alloc: Global,
    entries: &[SpooledStream],
) -> Result<GemReply, AllocError>
    requires { AreFewFunctions (map (λ s. s.functions) entries.now) }
    ensures reply { IfOk result (λ r. r ≡ reply.S2F44 (rspack plant.old entries.now) (refusals plant.old entries.now)) }
    ensures sendable { IfOk result HasSendableParts }
    ensures after { OnOk result (plant.new ≡ spools entries.now plant.old) }
{
    if !plant.is_spool_inactive() {
        return Ok(GemReply::S2F44(1, Listed::new(alloc)));
    }
    let refusals = refusals(alloc, entries)?;
    if !refusals.is_empty() {
        return Ok(GemReply::S2F44(1, refusals));
    }
    plant.set_spooled_kinds(kinds_of(entries));
    Ok(GemReply::S2F44(0, refusals))
}
