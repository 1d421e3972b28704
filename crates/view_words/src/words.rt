//! The commands.
ghost use Rattle.std.specs.Prelude.{◌≡◌, ◌↔◌, Ok, Some, None, IfOk, IfErr, IsOk};
ghost use Rattle.program_words.specs.Commands.{place_of};
ghost use Rattle.view_words.specs.declared.words.ViewWords.{ViewWords};
ghost use Rattle.view_words.specs.Commands.{SpellsNamed, Spells, misfit_named, misfit_transcript, misfit_picture, misfit};

use gem_ids::Text80;
use program_words::{Row, WordsFault, file_behind, is_file, split_word};

// `words [CONFIG]`
const WORDS: Row = Row {
    name: "words",
    words: "[CONFIG]",
    does: "Reads a transcript from standard input and prints it in words",
};

// `pcap [CONFIG]`
const PCAP: Row = Row {
    name: "pcap",
    words: "[CONFIG]",
    does: "Reads a transcript from standard input and writes a capture file",
};

// `chart CONFIG`
const CHART: Row = Row {
    name: "chart",
    words: "CONFIG",
    does: "Reads the lines of a run from standard input and draws what happened to each wafer",
};

// `states TABLE`
const STATES: Row = Row {
    name: "states",
    words: "TABLE",
    does: "Draws the states and the rows of a table",
};

/// The table of the commands, in the order in which the usage text has them.
pub(crate) const COMMANDS: &[Row] = &[WORDS, PCAP, CHART, STATES];

/// A command of the program `gem300_view`. A configuration is the name of a file, and may be left out.
#[derive(Clone, Copy)]
pub enum ViewWords {
    /// `words [CONFIG]`: a transcript is written in words.
    Words(Option<Text80>),
    /// `pcap [CONFIG]`: a transcript is written as a capture file.
    Pcap(Option<Text80>),
    /// `chart CONFIG`: a run is drawn.
    Chart(Text80),
    /// `states TABLE`: the states of a table are drawn.
    States(Text80),
}

// The file behind this name, where the words are both, or none where they are the name alone; else the place of the first that doesn't
// fit.
fn named(name: &[u8], words: &[Text80]) -> Result<Option<Text80>, u64>
    ensures ok { IfOk result (λ config. SpellsNamed name.now words.now config) }
    ensures place { IfErr result (λ place. misfit_named name.now words.now ≡ Some place) }
{
    let Some((word, words)) = split_word(words) else {
        return Err(0);
    };
    if word.as_bytes() != name {
        return Err(0);
    }
    let Some((config, words)) = split_word(words) else {
        return Ok(None);
    };
    if !is_file(&config) {
        return Err(1);
    }
    match split_word(words) {
        None => Ok(Some(config)),
        Some(_) => Err(2),
    }
}

// The command on a transcript, or the place of the first word that fits none.
fn transcript_command(words: &[Text80]) -> Result<ViewWords, u64>
    ensures command { IfOk result (λ w. Spells words.now w) }
    ensures place { IfErr result (λ place. misfit_transcript words.now ≡ Some place) }
{
    let place = match named(WORDS.name.as_bytes(), words) {
        Ok(config) => return Ok(ViewWords::Words(config)),
        Err(place) => place,
    };
    match named(PCAP.name.as_bytes(), words) {
        Ok(config) => Ok(ViewWords::Pcap(config)),
        Err(farther) => Err(place.max(farther)),
    }
}

// The command that draws, or the place of the first word that fits none.
fn picture_command(words: &[Text80]) -> Result<ViewWords, u64>
    ensures command { IfOk result (λ w. Spells words.now w) }
    ensures place { IfErr result (λ place. misfit_picture words.now ≡ Some place) }
{
    let place = match file_behind(CHART.name.as_bytes(), words) {
        Ok(config) => return Ok(ViewWords::Chart(config)),
        Err(place) => place,
    };
    match file_behind(STATES.name.as_bytes(), words) {
        Ok(table) => Ok(ViewWords::States(table)),
        Err(farther) => Err(place.max(farther)),
    }
}

/// The command that the words spell (this tool's profile, docs/profile/view.md): `words [CONFIG]`, `pcap [CONFIG]`, `chart CONFIG` or
/// `states TABLE`. A file, and the name of a picture, is a word that isn't empty and doesn't begin with a minus. `Place` comes exactly where
/// the words spell none. Takes no memory.
pub fn command_of(words: &[Text80]) -> Result<ViewWords, WordsFault>
    ensures command { IfOk result (λ w. Spells words.now w) }
    ensures place { IfErr result (λ e. misfit words.now ≡ Some (place_of e)) }
    ensures value { (w : ViewWords) → Spells words.now w → result ≡ Ok w }
    ensures fits { IsOk result ↔ (misfit words.now ≡ None) }
{
    let place = match transcript_command(words) {
        Ok(command) => return Ok(command),
        Err(place) => place,
    };
    match picture_command(words) {
        Ok(command) => Ok(command),
        Err(farther) => Err(WordsFault::Place(place.max(farther))),
    }
}
