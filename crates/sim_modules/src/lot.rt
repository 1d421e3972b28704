//! The lines of a carrier in a batch.

ghost use Rattle.std.specs.Prelude.{◌≡◌, ◌≤◌, ◌^◌, ◌++◌, nat_le, IfOk, OnOk, OnErr};
ghost use Rattle.gem_ids.specs.Names.{two_digits};
ghost use Rattle.item_model.specs.View.{view};
ghost use Rattle.item_model.specs.Weight.{IsBounded};
ghost use Rattle.tool_events.specs.Configs.{IsConfig};
ghost use Rattle.sim_modules.specs.Lot.{asked_header, carrier_name, control_job_line, control_job_name, first_recipe, host_line, lot_line, lot_number, lot_port, placed_line, proceed_line, process_job_line, process_job_name, removed_line};

use crate::asked::{control_job, proceed, process_job};
use gem_ids::Text80;
use hsms_frame::{Bytes, Frame, Header, NoMemory, write_frame};
use item_model::Item;
use secs_items::encode;
use std::alloc::Global;
use tool_events::Config;
use tool_tasks::Recipes;

/// Appends the `i`-th of the six lines of carrier `k` in a batch, without a line end (this tool's profile, batch). Both are
/// counted from 1. False exactly where `i` is over 6, and nothing is appended then. After `NoMemory` the output is as before.
///
/// The carrier is placed at its port, the host says twice that it may be worked on, asks for a process job and a control job
/// over it, and the carrier is taken away.
pub fn lot_line(
    alloc: Global,
    config: &Config,
    k: u32,
    i: u32,
    out: &mut Vec<u8>,
) -> Result<bool, NoMemory>
    requires config { IsConfig config.now }
    requires first { 1 ≤ k }
    requires last { k ≤ 10000 }
    requires line { 1 ≤ i }
    ensures told { IfOk result (λ told. told ≡ nat_le i 6) }
    ensures ok { OnOk result (out.new.items ≡ out.old.items ++ lot_line config.now k i) }
    ensures no_memory { OnErr result (out.new.items ≡ out.old.items) }
{
    if i > 6 {
        return Ok(false);
    }
    let line = line_of(alloc, config, k, i)?;
    out.extend_from_slice(line.as_slice())?;
    Ok(true)
}

// The i-th of the six lines of a carrier.
fn line_of(alloc: Global, config: &Config, k: u32, i: u32) -> Result<Vec<u8>, NoMemory>
    requires config { IsConfig config.now }
    requires first { 1 ≤ k }
    requires last { k ≤ 10000 }
    requires line { 1 ≤ i }
    requires end { i ≤ 6 }
    ensures { IfOk result (λ line. line.items ≡ lot_line config.now k i) }
{
    match i {
        1 => placed(alloc, config.ports, k),
        2 => proceed_line(alloc, config, k, 4 * k - 1),
        3 => proceed_line(alloc, config, k, 4 * k),
        4 => process_job_line(alloc, config, k, 4 * k + 1),
        5 => control_job_line(alloc, config, k, 4 * k + 2),
        _ => removed(alloc, config.ports, k),
    }
}

// ---- names and numbers

// The two digits in the names of a carrier and its jobs.
fn digits(k: u32) -> [u8; 2]
    requires { 1 ≤ k }
    ensures { result ≡ two_digits (lot_number k) }
{
    let number = 1 + (k - 1) % 16;
    [b'0' + (number / 10) as u8, b'0' + (number % 10) as u8]
}

// The name of a carrier.
fn carrier_name(k: u32) -> [u8; 5]
    requires { 1 ≤ k }
    ensures { result ≡ carrier_name k }
{
    let [tens, ones] = digits(k);
    [b'L', b'O', b'T', tens, ones]
}

// The name of its process job.
fn process_job_name(k: u32) -> [u8; 4]
    requires { 1 ≤ k }
    ensures { result ≡ process_job_name k }
{
    let [tens, ones] = digits(k);
    [b'P', b'J', tens, ones]
}

// The name of its control job.
fn control_job_name(k: u32) -> [u8; 4]
    requires { 1 ≤ k }
    ensures { result ≡ control_job_name k }
{
    let [tens, ones] = digits(k);
    [b'C', b'J', tens, ones]
}

// The port of a carrier.
fn port(ports: u8, k: u32) -> u8
    requires ports { 1 ≤ ports }
    requires first { 1 ≤ k }
    ensures { result ≡ lot_port ports k }
{
    1 + ((k - 1) % ports as u32) as u8
}

// The name of the first recipe.
fn first_recipe(recipes: &Recipes) -> Text80
    ensures { result ≡ first_recipe recipes.now }
{
    match recipes.as_slice().first() {
        Some(recipe) => recipe.name,
        None => Text80::empty(),
    }
}

// ---- the lines

// The carrier is placed at its port.
fn placed(alloc: Global, ports: u8, k: u32) -> Result<Vec<u8>, NoMemory>
    requires ports { 1 ≤ ports }
    requires first { 1 ≤ k }
    ensures { IfOk result (λ line. line.items ≡ placed_line ports k) }
{
    let port = port(ports, k);
    let mut line = format!(in alloc; "S placed {port} ")?.into_bytes();
    line.extend_from_slice(&carrier_name(k))?;
    line.extend_from_slice(b" 3333333333333333333333333")?;
    Ok(line)
}

// The carrier is taken away.
fn removed(alloc: Global, ports: u8, k: u32) -> Result<Vec<u8>, NoMemory>
    requires ports { 1 ≤ ports }
    requires first { 1 ≤ k }
    ensures { IfOk result (λ line. line.items ≡ removed_line ports k) }
{
    let port = port(ports, k);
    Ok(format!(in alloc; "S removed {port}")?.into_bytes())
}

// The host says that the carrier may be worked on.
fn proceed_line(alloc: Global, config: &Config, k: u32, system: u32) -> Result<Vec<u8>, NoMemory>
    requires config { IsConfig config.now }
    requires first { 1 ≤ k }
    ensures { IfOk result (λ line. line.items ≡ proceed_line config.now k system) }
{
    let item = proceed(alloc, &carrier_name(k), port(config.ports, k))?;
    host_line(alloc, asked_header(config.device, 3, 17, system), &item)
}

// The host asks for the carrier's process job.
#[tactic(auto, using(crate::proofs::Bounds::process_job_bounded))]
fn process_job_line(
    alloc: Global,
    config: &Config,
    k: u32,
    system: u32,
) -> Result<Vec<u8>, NoMemory>
    requires first { 1 ≤ k }
    ensures { IfOk result (λ line. line.items ≡ process_job_line config.now k system) }
{
    let recipe = first_recipe(&config.recipes);
    let recipe = recipe.as_bytes();
    let item = process_job(alloc, &process_job_name(k), &carrier_name(k), recipe)?;
    host_line(alloc, asked_header(config.device, 16, 11, system), &item)
}

// The host asks for the carrier's control job.
fn control_job_line(
    alloc: Global,
    config: &Config,
    k: u32,
    system: u32,
) -> Result<Vec<u8>, NoMemory>
    requires first { 1 ≤ k }
    ensures { IfOk result (λ line. line.items ≡ control_job_line config.now k system) }
{
    let item = control_job(alloc, &control_job_name(k), &process_job_name(k))?;
    host_line(alloc, asked_header(config.device, 14, 9, system), &item)
}

// The header of a primary of the host that wants a reply.
fn asked_header(device: u16, stream: u8, function: u8, system: u32) -> Header
    requires { stream ≤ 127 }
    ensures { result ≡ asked_header device stream function system }
{
    Header {
        session: device,
        byte2: 128 + stream,
        byte3: function,
        ptype: 0,
        stype: 0,
        system,
    }
}

// The line of a whole frame.
#[tactic(auto, using(crate::proofs::Bounds::can_be_sent, body_parts::proofs::Bounds::short_text))]
fn host_line(alloc: Global, header: Header, item: &Item) -> Result<Vec<u8>, NoMemory>
    requires { IsBounded 5 (2 ^ 31) (view item.now) }
    ensures { IfOk result (λ line. line.items ≡ host_line header (view item.now)) }
{
    let mut text = Vec::new(alloc);
    encode(item, &mut text)?;
    let text = Bytes::from_vec(text);
    let mut frame = Vec::new(alloc);
    write_frame(&Frame { header, text }, &mut frame)?;
    let digits = hex::encode_upper(alloc, frame.as_slice())?;
    Ok(format!(in alloc; "H {digits}")?.into_bytes())
}
