//! The words of the commands `feed`, `batch` and `serve`.
ghost use Rattle.std.specs.Prelude.{◌≡◌, ◌≤◌, ◌↔◌, ℕ, List, None, Some, Ok, IfErr, IsOk};
ghost use Rattle.program_words.specs.Commands.{Spells};
ghost use Rattle.program_words.specs.declared.words.Words.TheVariants as command;
ghost use Rattle.line_feeding.specs.Words.{refused_at, serve_refused_at};
ghost use Rattle.line_feeding.specs.declared.words.FeedWords.TheVariants as asks;

use gem_ids::Text80;
use program_words::{Words, WordsFault, command_of};

/// What words ask of the call `feed`.
#[derive(Clone, Copy)]
pub enum FeedWords {
    /// `feed CONFIG`: lines are read, and lines are written.
    Feed,
    /// `batch SEED CARRIERS CONFIG`: so many carriers are processed, in an order that comes of the seed.
    Batch(u64, u32),
}

/// What the words ask of the call `feed`: the command `feed CONFIG` or `batch SEED CARRIERS CONFIG` (this tool's profile, the
/// program's words). The error is the place of the first, counted from 0, that does not fit: where they are no command at all, the one
/// that fits none; where they are another command, 0. Takes no memory.
pub fn check_words(words: &[Text80]) -> Result<FeedWords, u64>
    ensures feed { (config : List ℕ) → Spells words.now (command.Feed config) → result ≡ Ok asks.Feed }
    ensures batch { (seed carriers : ℕ) (config : List ℕ) → Spells words.now (command.Batch seed carriers config) → result ≡ Ok (asks.Batch seed carriers) }
    ensures carriers { (seed carriers : ℕ) → result ≡ Ok (asks.Batch seed carriers) → carriers ≤ 10000 }
    ensures fits { IsOk result ↔ (refused_at words.now ≡ None) }
    ensures place { IfErr result (λ place. refused_at words.now ≡ Some place) }
{
    match command_of(words) {
        Ok(Words::Feed(_)) => Ok(FeedWords::Feed),
        Ok(Words::Batch(seed, carriers, _)) => Ok(FeedWords::Batch(seed, carriers)),
        Ok(_) => Err(0),
        Err(WordsFault::Place(place)) => Err(place),
    }
}

/// Whether the words are the command `serve CONFIG` (this tool's profile, the program's words). The error is the place of the
/// first, counted from 0, that does not fit it: where they are no command at all, the one that fits none. Takes no memory.
pub fn check_serve_words(words: &[Text80]) -> Result<(), u64>
    ensures fits { IsOk result ↔ (serve_refused_at words.now ≡ None) }
    ensures place { IfErr result (λ place. serve_refused_at words.now ≡ Some place) }
{
    match command_of(words) {
        Ok(Words::Serve(_)) => Ok(()),
        Ok(_) => Err(0),
        Err(WordsFault::Place(place)) => Err(place),
    }
}
