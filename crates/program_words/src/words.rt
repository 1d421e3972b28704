//! The commands.
ghost use Rattle.std.specs.Prelude.{◌≡◌, ◌≤◌, ◌↔◌, Ok, Some, None, IfOk, IfErr, IfSome, IsOk, IsTrue, [], ◌∷◌, ◌<◌, codes};
ghost use Rattle.program_words.specs.declared.words.Words.{Words};
ghost use Rattle.program_words.specs.Numbers.{number_in};
ghost use Rattle.program_words.specs.Commands.{misfit_of, feed_places, serve_places, batch_places, notes_places, misfit, Spells, SpellsBehindSeed, places_behind_seed, places_behind_batch, place_of};

use crate::number::number_in;
use crate::reading::{file_behind, last_file, split_word};
use crate::told::Row;
use gem_ids::Text80;

// `feed CONFIG`
const FEED: Row = Row {
    name: "feed",
    words: "CONFIG",
    does: "Reads lines from standard input and prints lines",
};

// `serve CONFIG`
const SERVE: Row = Row {
    name: "serve",
    words: "CONFIG",
    does: "Listens on 127.0.0.1 and reads a script from standard input",
};

// `batch SEED CARRIERS CONFIG`
const BATCH: Row = Row {
    name: "batch",
    words: "SEED CARRIERS CONFIG",
    does: "Processes carriers, reads no input and prints a summary",
};

// `notes FILE`
const NOTES: Row = Row {
    name: "notes",
    words: "FILE",
    does: "Reads lines to a durable spool from standard input and prints its notes",
};

/// The table of the commands, in the order in which the usage text has them.
pub(crate) const COMMANDS: &[Row] = &[FEED, SERVE, BATCH, NOTES];

// The greatest seed.
const MOST_SEED: u64 = u64::MAX;

// The greatest number of carriers.
const MOST_CARRIERS: u64 = 10_000;

/// A command of the program.
#[derive(Clone, Copy)]
pub enum Words {
    /// `feed CONFIG`: reads lines from standard input, under the configuration in this file.
    Feed(Text80),
    /// `serve CONFIG`: listens on 127.0.0.1 at the configured port under the configuration in this file, and reads a script from
    /// standard input.
    Serve(Text80),
    /// `batch SEED CARRIERS CONFIG`: processes so many carriers, 1 to 10,000, under the configuration in this file. The order in
    /// which its modules answer comes of the seed.
    Batch(u64, u32, Text80),
    /// `notes FILE`: reads lines from standard input, which change and print the notes of the durable spool in this file.
    Notes(Text80),
}

/// Why words are no command.
#[derive(Clone, Copy)]
pub enum WordsFault {
    /// The first word, counted from 0, that fits no command. A word that is missing has the place where it is wanted.
    Place(u64),
}

// The command `feed CONFIG`, or the place of the first word that doesn't fit it.
fn feed_of(words: &[Text80]) -> Result<Words, u64>
    ensures ok { IfOk result (λ w. Spells words.now w) }
    ensures place { IfErr result (λ place. misfit_of 0 feed_places words.now ≡ Some place) }
{
    match file_behind(FEED.name.as_bytes(), words) {
        Ok(config) => Ok(Words::Feed(config)),
        Err(place) => Err(place),
    }
}

// The command `serve CONFIG`, or the place of the first word that doesn't fit it.
fn serve_of(words: &[Text80]) -> Result<Words, u64>
    ensures ok { IfOk result (λ w. Spells words.now w) }
    ensures place { IfErr result (λ place. misfit_of 0 serve_places words.now ≡ Some place) }
{
    match file_behind(SERVE.name.as_bytes(), words) {
        Ok(config) => Ok(Words::Serve(config)),
        Err(place) => Err(place),
    }
}

// The command `batch` with this seed, of the words behind it, `CARRIERS CONFIG`, or the place of the first word that doesn't fit it.
fn batch_of_seed(seed: u64, words: &[Text80]) -> Result<Words, u64>
    ensures ok { IfOk result (λ w. SpellsBehindSeed seed words.now w) }
    ensures place { IfErr result (λ place. misfit_of 2 places_behind_seed words.now ≡ Some place) }
{
    let Some((word, words)) = split_word(words) else {
        return Err(2);
    };
    let Some(carriers) = number_in(word.as_bytes(), 1, MOST_CARRIERS) else {
        return Err(2);
    };
    match last_file(words, 3) {
        Ok(config) => Ok(Words::Batch(seed, carriers as u32, config)),
        Err(place) => Err(place),
    }
}

// The command `batch`, of the words behind its name, `SEED CARRIERS CONFIG`, or the place of the first word that doesn't fit it.
fn batch_behind_name(words: &[Text80]) -> Result<Words, u64>
    ensures ok { IfOk result (λ w. Spells (codes "batch" ∷ words.now) w) }
    ensures place { IfErr result (λ place. misfit_of 1 places_behind_batch words.now ≡ Some place) }
{
    let Some((word, words)) = split_word(words) else {
        return Err(1);
    };
    let Some(seed) = number_in(word.as_bytes(), 0, MOST_SEED) else {
        return Err(1);
    };
    batch_of_seed(seed, words)
}

// The command `batch SEED CARRIERS CONFIG`, or the place of the first word that doesn't fit it.
fn batch_of(words: &[Text80]) -> Result<Words, u64>
    ensures ok { IfOk result (λ w. Spells words.now w) }
    ensures place { IfErr result (λ place. misfit_of 0 batch_places words.now ≡ Some place) }
{
    let Some((name, words)) = split_word(words) else {
        return Err(0);
    };
    if name.as_bytes() != BATCH.name.as_bytes() {
        return Err(0);
    }
    batch_behind_name(words)
}

// The command `notes FILE`, or the place of the first word that doesn't fit it.
fn notes_of(words: &[Text80]) -> Result<Words, u64>
    ensures ok { IfOk result (λ w. Spells words.now w) }
    ensures place { IfErr result (λ place. misfit_of 0 notes_places words.now ≡ Some place) }
{
    match file_behind(NOTES.name.as_bytes(), words) {
        Ok(file) => Ok(Words::Notes(file)),
        Err(place) => Err(place),
    }
}

/// The command that the words spell (this tool's profile, the program's words): `feed CONFIG`, `serve CONFIG`,
/// `batch SEED CARRIERS CONFIG` with numbers in decimal digits without leading zeros, or `notes FILE`. A file is a word that isn't
/// empty and doesn't begin with a minus. `Place` comes exactly where the words spell none. Takes no memory.
pub fn command_of(words: &[Text80]) -> Result<Words, WordsFault>
    ensures command { IfOk result (λ w. Spells words.now w) }
    ensures place { IfErr result (λ e. misfit words.now ≡ Some (place_of e)) }
    ensures value { (w : Words) → Spells words.now w → result ≡ Ok w }
    ensures fits { IsOk result ↔ (misfit words.now ≡ None) }
{
    let feed = match feed_of(words) {
        Ok(command) => return Ok(command),
        Err(place) => place,
    };
    let serve = match serve_of(words) {
        Ok(command) => return Ok(command),
        Err(place) => place,
    };
    let batch = match batch_of(words) {
        Ok(command) => return Ok(command),
        Err(place) => place,
    };
    match notes_of(words) {
        Ok(command) => Ok(command),
        Err(place) => Err(WordsFault::Place(feed.max(serve).max(batch).max(place))),
    }
}
