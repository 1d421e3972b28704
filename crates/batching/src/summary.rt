//! The summary of a batch, and how the batch ends.
ghost use Rattle.std.specs.Prelude.{◌≡◌, ◌≢◌, ◌++◌, Ok, IfOk, OnOk};
ghost use Rattle.outside.specs.Counts.{Failed};
ghost use Rattle.run_causes.specs.declared.cause.Cause.TheVariants as cause;
ghost use Rattle.batch_model.specs.Summary.{number_line, summary_of};
ghost use Rattle.batching.specs.Batched.{Summed};
ghost use Rattle.batching.specs.Ending.{EndsAs};

use crate::batch::Stop;
use history_laws::Recorder;
use history_parts::Totals;
use line_feeding::Cause;
use outside::{Sink, write_all};
use std::alloc::{AllocError, Global};

// Appends a line: a word and a number.
fn push_line(alloc: Global, word: &str, n: u64, text: &mut Vec<u8>) -> Result<(), AllocError>
    ensures { OnOk result (text.new.items ≡ text.old.items ++ number_line word.now n) }
{
    let line = format!(in alloc; "{word} {n}\n")?;
    text.extend_from_slice(line.as_bytes())
}

// The four lines of a batch of so many carriers, with these counts.
fn summary_text(alloc: Global, carriers: u32, totals: &Totals) -> Result<Vec<u8>, AllocError>
    ensures { IfOk result (λ text. text.items ≡ summary_of carriers totals.now) }
{
    let mut text = Vec::new(alloc);
    push_line(alloc, "carriers", carriers as u64, &mut text)?;
    push_line(alloc, "substrates", totals.substrates, &mut text)?;
    push_line(alloc, "done", totals.done, &mut text)?;
    push_line(alloc, "completed", totals.completed, &mut text)?;
    Ok(text)
}

// Writes the summary of a batch that was done.
fn write_summary<C: Recorder, K: Sink>(alloc: Global, core: &C, carriers: u32, out: &mut K) -> Cause
    ensures ends { EndsAs (Ok tt) result (C.view core.now).history }
    ensures summed { Summed (C.view core.now).config carriers result (K.held out.old) (K.held out.new) (C.view core.now).history }
    ensures write_fault { result ≡ cause.WriteFault → Failed (K.faults out.old) (K.faults out.new) (K.refusals out.old) (K.refusals out.new) }
    ensures no_write_failed { result ≢ cause.WriteFault → (K.faults out.new ≡ K.faults out.old) × (K.refusals out.new ≡ K.refusals out.old) }
{
    let Ok(text) = summary_text(alloc, carriers, &core.totals()) else {
        return Cause::NoMemory;
    };
    match write_all(out, &text) {
        Ok(()) => Cause::Done,
        Err(_) => Cause::WriteFault,
    }
}

/// Ends a batch of this core, which ran so: where all was done, its summary is written. Says why the batch ended.
pub fn finish<C: Recorder, K: Sink>(
    alloc: Global,
    core: &C,
    ran: Result<(), Stop>,
    carriers: u32,
    out: &mut K,
) -> Cause
    ensures ends { EndsAs ran result (C.view core.now).history }
    ensures summed { Summed (C.view core.now).config carriers result (K.held out.old) (K.held out.new) (C.view core.now).history }
    ensures write_fault { result ≡ cause.WriteFault → Failed (K.faults out.old) (K.faults out.new) (K.refusals out.old) (K.refusals out.new) }
    ensures no_write_failed { result ≢ cause.WriteFault → (K.faults out.new ≡ K.faults out.old) × (K.refusals out.new ≡ K.refusals out.old) }
{
    match ran {
        Ok(()) => write_summary(alloc, core, carriers, out),
        Err(Stop::Full) => Cause::Full(core.history().len() as u64, core.bytes(), 0),
        Err(Stop::NoMemory) => Cause::NoMemory,
    }
}
