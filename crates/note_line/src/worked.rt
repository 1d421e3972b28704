//! Worked lines, computed from the definitions. Each function is a statement about them, and has no code.

ghost use Rattle.std.specs.Prelude.{◌≡◌, true, false, [], ◌∷◌, Some, None, option_map};
ghost use Rattle.spool.specs.declared.note.Kind.TheVariants.{Alarm};
ghost use Rattle.spool.specs.declared.note.Note.{Note};
ghost use Rattle.spool.specs.declared.states.Load.TheVariants as load;
ghost use Rattle.spool.specs.declared.states.Unload.TheVariants as unload;
ghost use Rattle.note_line.specs.declared.fate.Fate.TheVariants.{Answered, Open, Waiting, Spooled, Dropped};
ghost use Rattle.note_line.specs.declared.fate.DropCause.TheVariants.{NoSpool, Full, Purged};
ghost use Rattle.note_line.specs.Line.{opening, next, noted, answered, fate_of};
ghost use Rattle.note_line.specs.Table3.{least, line_starts, row_effect};
ghost use Rattle.note_line.specs.Worked.{talking, silent, overwriting, two_at_most, no_kinds, one, two, event, five, rows, settled, kept, first_sent, numbers, fates};

/// A note waits, is sent where the tool communicates, and is answered.
pub fn a_note_is_sent_and_answered()
    ensures first_number { next (opening 3 no_kinds) ≡ 1 }
    ensures noted { fates one ≡ Waiting ∷ [] }
    ensures ready { least talking one ≡ Some 13 }
    ensures sent { fates (row_effect talking 13 one) ≡ Open ∷ [] }
    ensures answered { fates (answered (row_effect talking 13 one)) ≡ Answered ∷ [] }
    ensures quiet { least talking (answered (row_effect talking 13 one)) ≡ None }
{}

/// Of two notes the older is sent, and the other waits until that one is answered.
pub fn a_second_note_waits_for_the_first()
    ensures older { option_map (λ (note : Note). note.number) (row_effect talking 13 two).opened ≡ Some 1 }
    ensures waits { numbers (row_effect talking 13 two).waiting ≡ 2 ∷ [] }
    ensures not_ready { least talking (row_effect talking 13 two) ≡ None }
    ensures ready { least talking (answered (row_effect talking 13 two)) ≡ Some 13 }
    ensures sent { fates (row_effect talking 13 (answered (row_effect talking 13 two))) ≡ Answered ∷ Open ∷ [] }
{}

/// A note whose transaction fails is dropped where its kind isn't spooled, and isn't sent again.
pub fn a_failed_note_is_dropped()
    ensures starts { line_starts talking 14 (row_effect talking 13 one) ≡ true }
    ensures dropped { fates (row_effect talking 14 (row_effect talking 13 one)) ≡ Dropped NoSpool ∷ [] }
    ensures none_waits { numbers (row_effect talking 14 (row_effect talking 13 one)).waiting ≡ [] }
    ensures not_again { least talking (row_effect talking 14 (row_effect talking 13 one)) ≡ None }
    ensures next { next (row_effect talking 14 (row_effect talking 13 one)) ≡ 2 }
{}

/// Where no note is open, none can fail.
pub fn no_note_fails_before_it_is_sent()
    ensures { line_starts talking 14 two ≡ false }
{}

/// Where the tool doesn't communicate, notes whose kind isn't spooled are dropped, the oldest first.
pub fn notes_are_dropped_without_communication()
    ensures ready { least silent two ≡ Some 11 }
    ensures older { fates (row_effect silent 11 two) ≡ Dropped NoSpool ∷ Waiting ∷ [] }
    ensures ready_again { least silent (row_effect silent 11 two) ≡ Some 11 }
    ensures both { fates (row_effect silent 11 (row_effect silent 11 two)) ≡ Dropped NoSpool ∷ Dropped NoSpool ∷ [] }
    ensures quiet { least silent (row_effect silent 11 (row_effect silent 11 two)) ≡ None }
{}

/// Five events without communication, in a spool of three that isn't overwritten: the first three are kept, and the other
/// two are dropped.
pub fn a_full_spool_keeps_the_oldest()
    ensures rows { rows 20 silent five ≡ 10 ∷ 1 ∷ 10 ∷ 10 ∷ 2 ∷ 10 ∷ 10 ∷ [] }
    ensures oldest { numbers kept.spool.notes ≡ 1 ∷ 2 ∷ 3 ∷ [] }
    ensures fates { fates kept ≡ Spooled ∷ Spooled ∷ Spooled ∷ Dropped Full ∷ Dropped Full ∷ [] }
    ensures total { kept.spool.total ≡ 3 }
{}

/// The same where it is overwritten: the last three are kept.
pub fn an_overwritten_spool_keeps_the_newest()
    ensures rows { rows 20 (overwriting silent) five ≡ 10 ∷ 1 ∷ 10 ∷ 10 ∷ 2 ∷ 10 ∷ 10 ∷ [] }
    ensures newest { numbers (settled 20 (overwriting silent) five).spool.notes ≡ 3 ∷ 4 ∷ 5 ∷ [] }
    ensures fates { fates (settled 20 (overwriting silent) five) ≡ Dropped Full ∷ Dropped Full ∷ Spooled ∷ Spooled ∷ Spooled ∷ [] }
    ensures total { (settled 20 (overwriting silent) five).spool.total ≡ 5 }
{}

/// The spool is INACTIVE without a note, NOT FULL with its first, FULL with its third, and INACTIVE when it has none again.
pub fn the_spool_changes_its_states()
    ensures inactive { five.spool.load ≡ load.Inactive }
    ensures not_full { (settled 2 silent five).spool.load ≡ load.NotFull }
    ensures full { (settled 5 silent five).spool.load ≡ load.Full }
    ensures room { first_sent.spool.load ≡ load.NotFull }
    ensures empty { (settled 20 talking (row_effect talking 5 kept)).spool.load ≡ load.Inactive }
{}

/// The host asks for two of three notes: they are sent, the oldest first, each with one of the budget, and the third stays.
pub fn the_host_gets_as_many_as_it_may()
    ensures starts { line_starts two_at_most 4 kept ≡ true }
    ensures transmit { (row_effect two_at_most 4 kept).spool.unload ≡ unload.Transmit }
    ensures budget { (row_effect two_at_most 4 kept).spool.budget ≡ Some 2 }
    ensures rows { rows 20 two_at_most (row_effect two_at_most 4 kept) ≡ 12 ∷ 3 ∷ [] }
    ensures oldest { option_map (λ (note : Note). note.number) first_sent.opened ≡ Some 1 }
    ensures one_left { first_sent.spool.budget ≡ Some 1 }
    ensures rows_again { rows 20 two_at_most (answered first_sent) ≡ 12 ∷ 8 ∷ [] }
    ensures no_output { (settled 20 two_at_most (answered first_sent)).spool.unload ≡ unload.NoOutput }
    ensures third { numbers (settled 20 two_at_most (answered first_sent)).spool.notes ≡ 3 ∷ [] }
    ensures fates { fates (answered (settled 20 two_at_most (answered first_sent))) ≡ Answered ∷ Answered ∷ Spooled ∷ Dropped Full ∷ Dropped Full ∷ [] }
{}

/// Where the tool doesn't communicate any more, the emptying stops.
pub fn the_emptying_stops_without_communication()
    ensures rows { rows 20 silent (row_effect talking 4 kept) ≡ 7 ∷ [] }
    ensures no_output { (settled 20 silent (row_effect talking 4 kept)).spool.unload ≡ unload.NoOutput }
{}

/// A spooled note whose transaction fails goes back before the others, and the emptying stops.
pub fn a_failed_note_goes_back_to_the_front()
    ensures others { numbers first_sent.spool.notes ≡ 2 ∷ 3 ∷ [] }
    ensures front { numbers (row_effect two_at_most 14 first_sent).spool.notes ≡ 1 ∷ 2 ∷ 3 ∷ [] }
    ensures no_output { (row_effect two_at_most 14 first_sent).spool.unload ≡ unload.NoOutput }
    ensures fates { fates (row_effect two_at_most 14 first_sent) ≡ Spooled ∷ Spooled ∷ Spooled ∷ Dropped Full ∷ Dropped Full ∷ [] }
    ensures rows { rows 20 talking (row_effect two_at_most 14 first_sent) ≡ 2 ∷ [] }
{}

/// The host has the spool emptied without sending it: each note in it is dropped as purged, the oldest first.
pub fn a_purge_drops_all()
    ensures purge { (row_effect talking 5 kept).spool.unload ≡ unload.Purge }
    ensures rows { rows 20 talking (row_effect talking 5 kept) ≡ 6 ∷ 3 ∷ 6 ∷ 6 ∷ 9 ∷ [] }
    ensures oldest { fates (settled 1 talking (row_effect talking 5 kept)) ≡ Dropped Purged ∷ Spooled ∷ Spooled ∷ Dropped Full ∷ Dropped Full ∷ [] }
    ensures all { fates (settled 20 talking (row_effect talking 5 kept)) ≡ Dropped Purged ∷ Dropped Purged ∷ Dropped Purged ∷ Dropped Full ∷ Dropped Full ∷ [] }
    ensures total { (settled 20 talking (row_effect talking 5 kept)).spool.total ≡ 0 }
{}

/// While the spool has notes, a new event goes behind them, and an alarm, whose kind isn't spooled, is sent. Without
/// communication such an alarm is dropped.
pub fn a_kind_that_is_not_spooled_passes_the_spool()
    ensures event_waits_behind { rows 20 (overwriting talking) (event kept) ≡ 10 ∷ [] }
    ensures behind { numbers (settled 20 (overwriting talking) (event kept)).spool.notes ≡ 2 ∷ 3 ∷ 6 ∷ [] }
    ensures alarm_is_sent { rows 20 talking (noted Alarm 31 [] kept) ≡ 13 ∷ [] }
    ensures alarm_is_dropped { rows 20 silent (noted Alarm 31 [] kept) ≡ 11 ∷ [] }
    ensures fate { fate_of 6 (settled 20 silent (noted Alarm 31 [] kept)).told ≡ Some (Dropped NoSpool) }
{}
