//! What a program tells of itself, by the table of its commands.

use crate::usage::Question;
use clap::{Arg, ArgAction, Command};
use std::alloc::{AllocError, Global};

/// A command, a row of the table of its program: its name, the words behind it, and what it does, as the usage text has them.
#[derive(Clone, Copy)]
pub struct Row {
    pub name: &'static str,
    pub words: &'static str,
    pub does: &'static str,
}

/// A program: its name, what it is, the table of its commands, and what stands below them in the usage text.
#[derive(Clone, Copy)]
pub struct Program {
    pub name: &'static str,
    pub about: &'static str,
    pub commands: &'static [Row],
    pub more: &'static str,
}

// How a command is called, a line of the usage, with the spaces below `Usage: `.
fn call_of(alloc: Global, program: &str, row: &Row) -> Result<String, AllocError> {
    let (name, words) = (row.name, row.words);
    format!(in alloc; "{program} {name} {words}\n       ")
}

// How the program is called: each command, and the options.
fn usage_of(alloc: Global, program: &Program) -> Result<String, AllocError> {
    let mut usage = String::new(alloc);
    for row in program.commands {
        let call = call_of(alloc, program.name, row)?;
        usage.push_str(call.as_str())?;
    }
    usage.push_str(program.name)?;
    usage.push_str(" --help | --version")?;
    Ok(usage)
}

// What a command does, and how it is called.
fn about_of(alloc: Global, row: &Row) -> Result<String, AllocError> {
    let (name, words, does) = (row.name, row.words, row.does);
    format!(in alloc; "{does}: {name} {words}")
}

// The same of each command of a table.
fn abouts_of(alloc: Global, commands: &[Row]) -> Result<Vec<String>, AllocError> {
    let mut abouts = Vec::new(alloc);
    for row in commands {
        abouts.push(about_of(alloc, row)?)?;
    }
    Ok(abouts)
}

// The commands of a table, with what each does.
fn commands_of<'a>(
    alloc: Global,
    commands: &[Row],
    abouts: &'a [String],
) -> Result<Vec<Command<'a>>, AllocError> {
    let mut all = Vec::new(alloc);
    for (row, about) in commands.iter().zip(abouts.iter()) {
        all.push(Command::new(alloc, row.name).about(about.as_str()))?;
    }
    Ok(all)
}

// An option of this name, which has no value, with what it does.
fn option<'a>(alloc: Global, name: &'a str, about: &'a str) -> Arg<'a> {
    Arg::new(alloc, name)
        .long(name)
        .action(ArgAction::SetTrue)
        .help(about)
}

// The program, with what stands around its commands and options in its usage text.
fn described<'a>(alloc: Global, program: &Program, usage: &'a str) -> Command<'a> {
    Command::new(alloc, program.name)
        .version("1.0.00")
        .about(program.about)
        .override_usage(usage)
        .after_help(program.more)
}

// The same, with no option and no command that it does not name itself.
fn bare<'a>(alloc: Global, program: &Program, usage: &'a str) -> Command<'a> {
    described(alloc, program, usage)
        .disable_help_flag(true)
        .disable_version_flag(true)
        .disable_help_subcommand(true)
}

// The program with its commands and options.
fn whole<'a>(
    alloc: Global,
    program: &Program,
    usage: &'a str,
    abouts: &'a [String],
) -> Result<Command<'a>, AllocError> {
    bare(alloc, program, usage)
        .subcommands(commands_of(alloc, program.commands, abouts)?)?
        .arg(option(alloc, "help", "Prints this text"))?
        .arg(option(alloc, "version", "Prints the name and the version"))
}

// What the program tells where this is asked.
fn told(program: &mut Command<'_>, question: Question) -> Result<String, AllocError> {
    match question {
        Question::Help => program.render_help(),
        Question::Version => program.render_version(),
    }
}

/// The text that is asked for: how the program is called, what each of its commands does, and what stands below them; or its name and
/// version.
pub fn told_text(
    alloc: Global,
    program: &Program,
    question: Question,
) -> Result<String, AllocError> {
    let usage = usage_of(alloc, program)?;
    let abouts = abouts_of(alloc, program.commands)?;
    let mut whole = whole(alloc, program, usage.as_str(), abouts.as_slice())?;
    told(&mut whole, question)
}
