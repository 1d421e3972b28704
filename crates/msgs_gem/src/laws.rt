//! Laws of messages and their replies together, for proofs to cite. Each function is empty: what it ensures holds of the
//! definitions.

ghost use Rattle.std.specs.Prelude.{◌≡◌, ◌≤◌, ℕ, List, length, filter_map, Option, Some};
ghost use Rattle.message_model.specs.Few.{HasFewParts};
ghost use Rattle.message_model.specs.declared.gem_primary.GemMsg.TheVariants.{S2F43};
ghost use Rattle.message_model.specs.declared.gem_primary.SpooledStream.{SpooledStream};
ghost use Rattle.message_model.specs.GemSendable.{HasSendableParts};
ghost use Rattle.message_model.specs.declared.gem_reply.GemReply.TheVariants.{S2F44};
ghost use Rattle.message_model.specs.declared.gem_reply.StreamRefusal.{StreamRefusal};

/// A reply can be sent that refuses some streams of a message with few functions, and of each at most as many functions
/// as the message has of it.
pub fn what_refuses_few_functions_can_be_sent()
    ensures { (refused : SpooledStream → Option StreamRefusal) (streams : List SpooledStream) (rspack : ℕ)
        → ((s : SpooledStream) (r : StreamRefusal) → refused s ≡ Some r → length r.functions ≤ length s.functions)
        → HasFewParts (S2F43 streams) → HasSendableParts (S2F44 rspack (filter_map refused streams)) }
{}
