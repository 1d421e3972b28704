//! Which notes the host asks to have spooled, and which of its entries are refused (SEMI E5, S2F43; SEMI E30, spooling).
ghost use Rattle.std.specs.Prelude.{◌≡◌, ◌==◌, filter_map, IfOk};
ghost use Rattle.std.specs.List.{list_any};
ghost use Rattle.message_model.specs.declared.gem_primary.SpooledStream.{SpooledStream};
ghost use Rattle.gem_model.specs.Spooling.{is_spoolable, faulty_functions, function_strack, refused, refusal_for, refusal, refusals, kinds_of};

use gem_ids::Listed;
use message_model::{SpooledStream, StreamRefusal};
use note_line::SpooledKinds;
use std::alloc::{AllocError, Global};

/// Whether a function can be spooled: S5F1 and S6F11, by which the tool sends its notes.
fn is_spoolable(stream: u8, function: u8) -> bool
    ensures { result ≡ is_spoolable stream function }
{
    (stream == 5 && function == 1) || (stream == 6 && function == 11)
}

/// The functions of an entry that can't be spooled, in order.
fn faulty_functions(alloc: Global, entry: &SpooledStream) -> Result<Listed<u8>, AllocError>
    ensures { IfOk result (λ functions. functions ≡ faulty_functions entry.now) }
{
    let mut faulty = Listed::new(alloc);
    for function in entry.functions.as_slice() {
        if !is_spoolable(entry.stream, *function) {
            faulty.push(*function)?;
        }
    }
    Ok(faulty)
}

/// STRACK for the first function that can't be spooled: 4 where it is even, and else 3.
fn function_strack(function: u8) -> u8
    ensures { result ≡ function_strack function }
{
    if function % 2 == 0 { 4 } else { 3 }
}

/// An entry that is refused with this STRACK, with these functions.
fn refused(entry: &SpooledStream, strack: u8, functions: Listed<u8>) -> StreamRefusal
    ensures { result ≡ refused entry.now strack functions }
{
    StreamRefusal {
        stream: entry.stream,
        strack,
        functions,
    }
}

/// How an entry is refused by its functions that can't be spooled; one that has none isn't.
fn refusal_for(entry: &SpooledStream, faulty: Listed<u8>) -> Option<StreamRefusal>
    ensures { result ≡ refusal_for entry.now faulty }
{
    let strack = function_strack(*faulty.as_slice().first()?);
    Some(refused(entry, strack, faulty))
}

/// How an entry is refused, if it is: STRACK 1 for stream 1, 2 for another of which the tool sends no note, and else by its
/// functions.
fn refusal(alloc: Global, entry: &SpooledStream) -> Result<Option<StreamRefusal>, AllocError>
    ensures { IfOk result (λ told. told ≡ refusal entry.now) }
{
    if entry.stream == 1 {
        return Ok(Some(refused(entry, 1, Listed::new(alloc))));
    }
    if !(entry.stream == 5 || entry.stream == 6) {
        return Ok(Some(refused(entry, 2, Listed::new(alloc))));
    }
    let faulty = faulty_functions(alloc, entry)?;
    Ok(refusal_for(entry, faulty))
}

/// The entries that are refused, in order.
pub fn refusals(
    alloc: Global,
    entries: &[SpooledStream],
) -> Result<Listed<StreamRefusal>, AllocError>
    ensures { IfOk result (λ told. told ≡ filter_map refusal entries.now) }
{
    let mut refusals = Listed::new(alloc);
    for entry in entries {
        if let Some(refusal) = refusal(alloc, entry)? {
            refusals.push(refusal)?;
        }
    }
    Ok(refusals)
}

/// Whether an entry has this stream.
fn has_stream(entries: &[SpooledStream], stream: u8) -> bool
    ensures { result ≡ list_any (λ (e : SpooledStream). e.stream == stream) entries.now }
{
    entries.iter().any(|entry| entry.stream == stream)
}

/// The kinds of note of these streams; an entry without functions means the one function of its stream.
pub fn kinds_of(entries: &[SpooledStream]) -> SpooledKinds
    ensures { result ≡ kinds_of entries.now }
{
    SpooledKinds {
        events: has_stream(entries, 6),
        alarms: has_stream(entries, 5),
    }
}
