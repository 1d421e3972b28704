//! Words by their places.
ghost use Rattle.std.specs.Prelude.{◌≡◌, ◌<◌, [], ◌∷◌, None, Some, IfOk, IfErr, IfSome, IsTrue};
ghost use Rattle.program_words.specs.Commands.{is_file_word, misfit_of, file_places, SpellsWith};

use gem_ids::Text80;

/// Whether a word can name a file: it isn't empty, and doesn't begin with a minus.
pub fn is_file(word: &Text80) -> bool
    ensures { result ≡ is_file_word word.now }
{
    let bytes = word.as_bytes();
    !bytes.is_empty() && !bytes.starts_with(b"-".as_slice())
}

/// The first word and those behind it.
pub fn split_word(words: &[Text80]) -> Option<(Text80, &[Text80])>
    ensures some { IfSome result (λ r. words.now ≡ r.0 ∷ r.1.now) }
    ensures none { result ≡ None → words.now ≡ [] }
{
    match words {
        [] => None,
        [word, words @ ..] => Some((*word, words)),
    }
}

// The file that is the last of these words, or the place of the first that doesn't fit, counted on from this one.
pub(crate) fn last_file(words: &[Text80], place: u64) -> Result<Text80, u64>
    requires { place < 10 }
    ensures ok { IfOk result (λ config. (words.now ≡ config ∷ []) × IsTrue (is_file_word config)) }
    ensures place { IfErr result (λ p. misfit_of place (is_file_word ∷ []) words.now ≡ Some p) }
{
    let Some((config, words)) = split_word(words) else {
        return Err(place);
    };
    if !is_file(&config) {
        return Err(place);
    }
    match split_word(words) {
        None => Ok(config),
        Some(_) => Err(place + 1),
    }
}

/// The word behind this name that can name a file, where the words are both, or the place of the first that doesn't fit.
pub fn file_behind(name: &[u8], words: &[Text80]) -> Result<Text80, u64>
    ensures ok { IfOk result (λ config. SpellsWith name.now words.now config) }
    ensures place { IfErr result (λ place. misfit_of 0 (file_places name.now) words.now ≡ Some place) }
{
    let Some((word, words)) = split_word(words) else {
        return Err(0);
    };
    if word.as_bytes() != name {
        return Err(0);
    }
    last_file(words, 1)
}
