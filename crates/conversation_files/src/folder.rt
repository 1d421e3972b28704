//! The files of the folder that a program of tests is run in. Begin with `Player` and `play_folder`.

use crate::script::{Section, read};
use anyhow::{Error, Result};
use std::alloc::{AllocError, Global};
use std::fs::{self, DirEntry, ReadDir};
use std::io;
use std::process::ExitCode;

/// What plays the conversations of files.
pub trait Player {
    /// Plays a conversation, and tells where it goes otherwise than it is written. The error tells that it could not be played.
    fn play(&self, alloc: Global, section: &Section<'_>) -> Result<Option<String>>;
}

/// Adds the name of a file.
fn add_name(alloc: Global, names: &mut Vec<String>, name: &str) -> Result<()> {
    match String::from_str(alloc, name) {
        Ok(name) => Ok(names.push(name)?),
        Err(why) => Err(why.into()),
    }
}

/// Adds the name of an entry of the folder.
fn add_entry(alloc: Global, names: &mut Vec<String>, entry: io::Result<DirEntry>) -> Result<()> {
    match entry {
        Ok(entry) => add_name(alloc, names, entry.file_name()),
        Err(why) => Err(why.into()),
    }
}

/// Adds the names of these entries.
fn add_entries(alloc: Global, names: &mut Vec<String>, entries: ReadDir) -> Result<()> {
    for entry in entries {
        if let Err(why) = add_entry(alloc, names, entry) {
            return Err(why);
        }
    }
    Ok(())
}

/// Adds the names of the files of this folder.
fn add_names(rt: &HostRuntime, names: &mut Vec<String>) -> Result<()> {
    match fs::read_dir(rt, ".") {
        Ok(entries) => add_entries(rt.alloc(), names, entries),
        Err(why) => Err(why.into()),
    }
}

/// The names of the files of this folder, in order.
fn names(rt: &HostRuntime) -> Result<Vec<String>> {
    let mut names = Vec::new(rt.alloc());
    match add_names(rt, &mut names) {
        Ok(()) => {
            names.sort_unstable();
            Ok(names)
        }
        Err(why) => Err(why),
    }
}

/// Tells why a conversation of a file went otherwise than it is written.
fn tell(rt: &HostRuntime, file: &str, name: &str, why: &str) {
    let _ = eprintln!(rt; "{file}, {name}: {why}");
}

/// Plays a conversation, and tells whether it went as it is written.
fn is_played<P: Player>(rt: &HostRuntime, player: &P, file: &str, section: &Section<'_>) -> bool {
    match player.play(rt.alloc(), section) {
        Ok(None) => return true,
        Ok(Some(why)) => tell(rt, file, section.name, why.as_str()),
        Err(_) => tell(rt, file, section.name, "there is no memory to play it"),
    }
    false
}

/// Plays these sections that are conversations, and tells whether all went as they are written.
fn are_played<P: Player>(
    rt: &HostRuntime,
    player: &P,
    file: &str,
    sections: &[Section<'_>],
) -> bool {
    let mut went = true;
    for section in sections {
        if !section.is_part && !is_played(rt, player, file, section) {
            went = false;
        }
    }
    went
}

/// How many of these sections are conversations.
fn count_of(sections: &[Section<'_>]) -> u64 {
    let mut count = 0u64;
    for section in sections {
        if !section.is_part {
            count = count.saturating_add(1);
        }
    }
    count
}

/// Prints the line of a file that has so many conversations. False where it cannot be printed.
fn print_count(rt: &HostRuntime, file: &str, count: u64) -> bool {
    let s = if count == 1 { "" } else { "s" };
    println!(rt; "{file}: {count} conversation{s}").is_ok()
}

/// Plays these sections of a file, and tells whether there is a conversation, and all went as they are written.
fn play_sections<P: Player>(
    rt: &HostRuntime,
    player: &P,
    file: &str,
    sections: &[Section<'_>],
) -> bool {
    let count = count_of(sections);
    if count == 0 {
        tell(rt, file, "no conversation", "it has none");
        return false;
    }
    are_played(rt, player, file, sections) && print_count(rt, file, count)
}

/// Tells why a file cannot be read, which counts as one of which a conversation failed.
fn is_unread(rt: &HostRuntime, file: &str, why: &Error) -> bool {
    let _ = eprintln!(rt; "{file}: {why:#}");
    false
}

/// Plays the conversations of a file of this text, and tells whether all of them went as they are written.
fn play_text<P: Player>(rt: &HostRuntime, player: &P, file: &str, text: &str) -> bool {
    match read(rt.alloc(), text) {
        Ok(sections) => play_sections(rt, player, file, sections.as_slice()),
        Err(why) => is_unread(rt, file, &why),
    }
}

/// Plays the conversations of a file, and tells whether all of them went as they are written.
fn is_well<P: Player>(rt: &HostRuntime, player: &P, file: &str) -> bool {
    match fs::read_to_string(rt, file) {
        Ok(text) => play_text(rt, player, file, text.as_str()),
        Err(why) => is_unread(rt, file, &why.into()),
    }
}

/// Plays all files, and tells whether there is one and all went well.
fn are_well<P: Player>(rt: &HostRuntime, player: &P, names: &[String]) -> bool {
    let mut well = !names.is_empty();
    for name in names {
        if !is_well(rt, player, name.as_str()) {
            well = false;
        }
    }
    well
}

/// Plays each file of the folder in which a program is run, in the order of their names, and prints a line for each that went
/// as it is written: its name, and how many conversations it has. Where a file cannot be read, or has no conversation, or one of
/// them goes otherwise than it is written, standard error tells which and where, and the status is 1; so it is where there is
/// no file.
pub fn play_folder<P: Player>(rt: &HostRuntime, player: &P) -> ExitCode {
    match names(rt) {
        Ok(names) if are_well(rt, player, names.as_slice()) => ExitCode::SUCCESS,
        Ok(_) => ExitCode::FAILURE,
        Err(why) => {
            let _ = eprintln!(rt; "{why:#}");
            ExitCode::FAILURE
        }
    }
}
