//! Runs, to which a text says what they are given, and which it asks what they leave.
//!
//! `words WORD ..` are the words of the command. `config`, `input` and `wanted`, and what is added to it behind that, are the
//! bytes of the configuration, of the input, and of what the run is to print (`places` of `test_lines`). `config_fault 1`, `read_fault 2` and `write_fault 1` let that
//! read or write fail, 0 none; `piece 4` is how many bytes a read of the input gives at most, and `limit 10` how many the sink takes in
//! all. `run` runs what was given, `run narrow` into a sink that takes one byte at a time; what was given stays.
//!
//! Of the last run are asked `status`, `cause`, `entries`, `same entries` (as many as the run before had), `counted` (the history is
//! full, and the cause has the number of its entries and of the bytes of text in it, and no byte of an input), `notes` (how many),
//! of session 1 `note 1` (why it ended) and `bytes 1` (that came and went), and `printed`.
//!
//! Behind `usage`, `help 3` and `version 1` tell a line of the text of `--help` and `--version`, counted from 1, and `help lines` how many
//! there are. Behind `text 3`, `cause` tells the text of the cause with this status: words at place 1, rule 0 with an empty key, 40 entries without text
//! and 500 bytes of the input, byte 5 of line 3.

use crate::given::{Given, run, run_narrow};
use crate::tool::Tools;
use crate::usage::tell_texts;
use anyhow::{Result, bail};
use std::alloc::{AllocError, Global};
use test_lines::{Subject, add, answer_of, first_word, tell_cause, tell_whether, texts_of};

/// What the next run is given, what the last one told, and how many entries it had.
pub struct Runs<'a, O> {
    tools: &'a O,
    given: Given,
    told: String,
    entries: usize,
}

// Written out, so that it is proved once.
impl<O> Drop for Runs<'_, O> {
    fn drop(self) {
        let Runs {
            tools: _tools,
            given: _given,
            told: _told,
            entries: _entries,
        } = self;
    }
}

impl<'a, O: Tools> Runs<'a, O> {
    /// Nothing is given, and nothing has run.
    pub fn new(tools: &'a O, alloc: Global) -> Runs<'a, O> {
        Runs {
            tools,
            given: Given::none(alloc),
            told: String::new(alloc),
            entries: 0,
        }
    }

    // Runs what was given.
    fn run(&mut self, alloc: Global, is_narrow: bool) -> Result<bool, AllocError> {
        let mut told = String::new(alloc);
        let entries = if is_narrow {
            run_narrow(self.tools, alloc, &self.given, &mut told)?
        } else {
            run(self.tools, alloc, &self.given, &mut told)?
        };
        tell_whether(&mut told, "same entries", entries == self.entries)?;
        self.told = told;
        self.entries = entries;
        Ok(true)
    }

    // Tells the cause with this status. False: it is no number.
    fn tell_text(&mut self, alloc: Global, status: &str) -> Result<bool, AllocError> {
        self.told.clear();
        match status.parse::<u8>() {
            Ok(status) => {
                tell_cause(alloc, &mut self.told, &self.tools.cause(alloc, status)?)?;
                Ok(true)
            }
            Err(_) => Ok(false),
        }
    }

    // Tells the texts of `--help` and `--version`.
    fn tell_usage(&mut self, alloc: Global) -> Result<bool, AllocError> {
        self.told.clear();
        tell_texts(self.tools, alloc, &mut self.told)?;
        Ok(true)
    }

    // Does what is said. False: it says nothing.
    fn take(&mut self, alloc: Global, said: &str) -> Result<bool, AllocError> {
        let (first, rest) = first_word(said);
        match first {
            "run" => self.run(alloc, rest == "narrow"),
            "text" => self.tell_text(alloc, rest),
            "usage" => self.tell_usage(alloc),
            _ => give(alloc, &mut self.given, first, rest),
        }
    }

    // Does what is said, which is answered nothing.
    fn taken(&mut self, alloc: Global, said: &str) -> Result<String> {
        if self.take(alloc, said)? {
            Ok(String::new(alloc))
        } else {
            bail!("it says nothing")
        }
    }
}

impl<O: Tools> Subject for Runs<'_, O> {
    fn answer(&mut self, alloc: Global, said: &str) -> Result<String> {
        match answer_of(self.told.as_str(), said) {
            Some(answer) => Ok(String::from_str(alloc, answer)?),
            None => self.taken(alloc, said),
        }
    }
}

// Gives the next run what is said. False: it says nothing.
fn give(alloc: Global, given: &mut Given, first: &str, rest: &str) -> Result<bool, AllocError> {
    match first {
        "words" => {
            given.words = texts_of(alloc, rest)?;
            Ok(true)
        }
        "config" => add(alloc, &mut given.config, rest),
        "input" => add(alloc, &mut given.input, rest),
        "wanted" => add(alloc, &mut given.wanted, rest),
        _ => match rest.parse::<usize>() {
            Ok(n) => Ok(limit(given, first, n)),
            Err(_) => Ok(false),
        },
    }
}

// Sets a limit. False: it has no such name.
fn limit(given: &mut Given, name: &str, n: usize) -> bool {
    match name {
        "config_fault" => given.limits.config_fault = n,
        "read_fault" => given.limits.read_fault = n,
        "write_fault" => given.limits.write_fault = n,
        "piece" => given.limits.piece = n,
        "limit" => given.limits.limit = n,
        _ => return false,
    }
    true
}
