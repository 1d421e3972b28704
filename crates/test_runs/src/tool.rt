//! What the tests here want of a tool. They know none: a program of tests gives them the one that it tests.

use gem_ids::{Moment, Text80};
use item_model::Item;
use outside::{MemSource, Sink, Source};
use std::alloc::{AllocError, Global};
use test_lines::Noted;
use tool_events::{Answer, Event, PostFault};

/// A tool that is told events one at a time, and asked.
pub trait Tool {
    /// What seat 1 is answered.
    fn post(&mut self, alloc: Global, at: Moment, event: Event) -> Result<Answer, PostFault>;

    /// Whether an event has to wait. None: the tool can't be asked any more.
    fn waits(&self, at: Moment, event: &Event) -> Option<bool>;

    /// The value of a variable outside a firing, or none. None in place of that: it can't be told.
    fn value(&self, alloc: Global, variable: u32) -> Option<Option<Item>>;

    /// Adds what is told of the tool by a word alone. None: it is no such word, or there is no memory.
    fn tell(&self, word: &str, answer: &mut String) -> Option<()>;

    /// Adds what is told of a number by a word. None: it is no such word, nothing is told of the number, or there is no memory.
    fn tell_of(&self, word: &str, number: u64, answer: &mut String) -> Option<()>;

    /// Takes the tool apart. How many entries it hands out.
    fn close(self) -> usize;
}

/// How a run over lines ended, and what it leaves.
#[derive(Drop)]
pub struct Ran {
    /// The status of the program.
    pub status: u8,
    /// The cause as standard error tells it, where there is one.
    pub cause: Option<String>,
    /// How many entries the history has.
    pub entries: usize,
    /// Whether the history is full, and the cause has the number of its entries and of the bytes of text in it, and no byte of an input.
    pub is_counted: bool,
    /// The notes of its sessions.
    pub notes: Vec<Noted>,
}

/// The tool as a program runs it over lines, and as one that is told events begins.
pub trait Tools {
    /// One that is told events.
    type Tool: Tool + Drop;

    /// One that begins under the configuration that a text says. None: none says it, or there is no memory.
    fn opened(&self, alloc: Global, configuration: &str) -> Option<Self::Tool>;

    /// Runs over the lines of an input, with the words of the command. The error: there is no memory to tell how it ended.
    fn run<S: Source, K: Sink>(
        &self,
        alloc: Global,
        words: &[Text80],
        config: &mut MemSource,
        input: &mut S,
        out: &mut K,
    ) -> Result<Ran, AllocError>;

    /// The text of the cause with this status: words at place 1, rule 0 with an empty key, 40 entries without text and 500 bytes of the
    /// input, byte 5 of line 3.
    fn cause(&self, alloc: Global, status: u8) -> Result<Option<String>, AllocError>;

    /// The text of `--help`.
    fn help(&self, alloc: Global) -> Result<String, AllocError>;

    /// The text of `--version`.
    fn version(&self, alloc: Global) -> Result<String, AllocError>;
}
