//! Cores and cutters, to which lines are said, and lots and bytes that are drawn from seeds and played.

use crate::begun::opened;
use crate::cuttings::Cuttings;
use crate::drawn::Lots;
use crate::frames::{Fed, ItemReader};
use crate::spoken::Spoken;
use crate::tool::Tools;
use anyhow::{Result, bail};
use conversation_files::Line;
use std::alloc::Global;
use test_lines::answers;

/// Says lines to the core that begins so, or plays the lots that they name (`begun`, `spoken` and `drawn`), or what else the first line
/// names. Tells the first line that is answered otherwise.
pub fn say<O: Tools>(
    tools: &O,
    alloc: Global,
    begins: &str,
    lines: &[Line<'_>],
) -> Result<Option<String>> {
    match begins {
        "to drawn lots" => answers(alloc, &mut Lots { tools }, lines),
        "to drawn bytes" => answers(alloc, &mut Cuttings { tools }, lines),
        "to the reader of items" => answers(alloc, &mut ItemReader, lines),
        begins => say_begun(tools, alloc, begins, lines),
    }
}

// Says lines to the cutter or to the core that begins so.
fn say_begun<O: Tools>(
    tools: &O,
    alloc: Global,
    begins: &str,
    lines: &[Line<'_>],
) -> Result<Option<String>> {
    if let Some(mut fed) = Fed::begun(alloc, begins) {
        return answers(alloc, &mut fed, lines);
    }
    match opened(tools, alloc, begins) {
        Some(core) => answers(alloc, &mut Spoken::new(core), lines),
        None => bail!("there is no such subject, or no memory"),
    }
}
