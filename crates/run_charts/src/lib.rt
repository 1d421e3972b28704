//! The chart of a run: lines as `gem300_tool feed` takes them are fed to a core, and what happened to each wafer is drawn
//! (docs/profile/charts.md).
//!
//! The run is that of `top_calls::feed_config`. Its history is played to a second core, entry by entry, which is asked behind each entry what
//! it has, by its public calls: its variables, and its process jobs, by the message S16F19. What is drawn of that stands in `wafer_chart`. A
//! run that ends before its input does, as at a line outside the grammar, is drawn as far as it went. Begin with `run_chart`.
#![tactic(auto)]

mod played;
mod tool;

use line_feeding::read_configuration;
use outside::{MemSink, Sink, Source, write_all};
use played::chart_of;
use std::alloc::Global;
pub use top_calls::Cause;
use top_calls::feed_config;

/// Reads a configuration, and then lines of the input as `feed` does, and writes the picture of the run as SVG text. Tells why it ended, as
/// `feed` tells it: where a line is outside the grammar, or the history is full, what came before is drawn. Where the configuration is
/// refused nothing is read of the input, and nothing is written. `WriteFault`: the picture was not written whole.
pub fn run_chart<C: Source, S: Source, K: Sink>(
    alloc: Global,
    config: &mut C,
    input: &mut S,
    out: &mut K,
) -> Cause {
    let config = match read_configuration(alloc, config) {
        Ok(config) => config,
        Err(cause) => return cause,
    };
    let mut printed = MemSink::new(alloc, Vec::new(alloc));
    let ended = feed_config(alloc, &config, input, &mut printed);
    let Ok(chart) = chart_of(alloc, &config, ended.history) else {
        return Cause::NoMemory;
    };
    match write_all(out, chart.as_slice()) {
        Ok(()) => ended.cause,
        Err(_) => Cause::WriteFault,
    }
}
