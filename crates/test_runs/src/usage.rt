//! What the program tells of itself, line by line.

use crate::tool::Tools;
use std::alloc::{AllocError, Global};
use test_lines::{tell, tell_number};

/// Tells the lines of the texts of `--help` and `--version`, as `help 1` and `version 1`, and how many each has, as `help lines`.
pub fn tell_texts<O: Tools>(tools: &O, alloc: Global, told: &mut String) -> Result<(), AllocError> {
    tell_lines(alloc, told, "help", tools.help(alloc)?.as_str())?;
    tell_lines(alloc, told, "version", tools.version(alloc)?.as_str())
}

fn tell_lines(alloc: Global, told: &mut String, name: &str, text: &str) -> Result<(), AllocError> {
    let mut count: u64 = 0;
    for line in text.split('\n') {
        count = count.saturating_add(1);
        tell_line(alloc, told, name, count, line)?;
    }
    tell_count(alloc, told, name, count)
}

fn tell_line(
    alloc: Global,
    told: &mut String,
    name: &str,
    place: u64,
    line: &str,
) -> Result<(), AllocError> {
    let key = format!(in alloc; "{name} {place}")?;
    tell(told, key.as_str(), line)
}

fn tell_count(alloc: Global, told: &mut String, name: &str, count: u64) -> Result<(), AllocError> {
    let key = format!(in alloc; "{name} lines")?;
    tell_number(alloc, told, key.as_str(), count)
}
