//! The readers of single values.
ghost use Rattle.std.specs.Prelude.{◌≡◌, ℕ, ◌≤◌, List, [], ◌∷◌, ◌++◌, Some, None, IfSome, if◌then◌else◌, option_map, length};
ghost use Rattle.std.specs.List.{list_all};
ghost use Rattle.std.specs.Str.{bytes_eq};
ghost use Rattle.toml.specs.View.{view, items_view};
ghost use Rattle.configuration.specs.Rules.{communication_words, control_words};
ghost use Rattle.configuration.specs.Values.{as_natural, is_between, is_plain, number_in, text_of, word_of, numbers_behind, streams_in, streams_of, has, filled_list};

use gem_ids::Text80;
use toml::Value;
use tool_events::{CommStart, ControlStart, SpoolStreams};

// The number of an integer that isn't negative.
fn as_natural(value: &Value) -> Option<u64>
    ensures { result ≡ as_natural (view value.now) }
{
    let number = value.as_integer()?;
    if number < 0 {
        None
    } else {
        Some(number as u64)
    }
}

// A number of at least and at most so much.
pub(crate) fn number_in(value: &Value, least: u64, most: u64) -> Option<u64>
    ensures value { result ≡ number_in least most (view value.now) }
    ensures least { IfSome result (λ n. least ≤ n) }
    ensures most { IfSome result (λ n. n ≤ most) }
{
    match as_natural(value) {
        Some(number) if least <= number && number <= most => Some(number),
        _ => None,
    }
}

// Whether each byte is 32 to 126.
fn is_printable(text: &[u8]) -> bool
    ensures { result ≡ list_all (is_between 32 126) text.now }
{
    for byte in text {
        if *byte < 32 || *byte > 126 {
            return false;
        }
    }
    true
}

// A text of 1 byte to so many, each 32 to 126.
pub(crate) fn text_of(value: &Value, most: usize) -> Option<Text80>
    requires { most ≤ 80 }
    ensures text { result ≡ text_of most (view value.now) }
    ensures some { IfSome result (λ text. 1 ≤ length text) }
    ensures fits { IfSome result (λ text. length text ≤ most) }
{
    let text = value.as_str()?.as_bytes();
    if text.is_empty() || text.len() > most || !is_printable(text) {
        return None;
    }
    Text80::read(text).ok()
}

// How communication begins.
pub(crate) fn communication_of(value: &Value) -> Option<CommStart>
    ensures { result ≡ word_of communication_words (view value.now) }
{
    let word = value.as_str()?.as_bytes();
    if word == b"disabled".as_slice() {
        Some(CommStart::Disabled)
    } else if word == b"enabled".as_slice() {
        Some(CommStart::Enabled)
    } else if word == b"communicating".as_slice() {
        Some(CommStart::Communicating)
    } else {
        None
    }
}

// How control begins.
pub(crate) fn control_of(value: &Value) -> Option<ControlStart>
    ensures { result ≡ word_of control_words (view value.now) }
{
    let word = value.as_str()?.as_bytes();
    if word == b"equipment_offline".as_slice() {
        Some(ControlStart::EquipmentOffline)
    } else if word == b"host_offline".as_slice() {
        Some(ControlStart::HostOffline)
    } else if word == b"online_local".as_slice() {
        Some(ControlStart::OnlineLocal)
    } else if word == b"online_remote".as_slice() {
        Some(ControlStart::OnlineRemote)
    } else {
        None
    }
}

// The values of a list that isn't empty.
pub(crate) fn filled_list(value: &Value) -> Option<&[Value]>
    ensures { option_map (λ vs. items_view vs.now) result ≡ filled_list (view value.now) }
{
    match value.as_array()?.as_slice() {
        [] => None,
        values => Some(values),
    }
}

// The streams with one more; none where they have it.
fn with_stream(found: SpoolStreams, stream: u64) -> Option<SpoolStreams>
    requires first { 5 ≤ stream }
    requires last { stream ≤ 6 }
    ensures { (seen : List ℕ) → found ≡ streams_in seen → result ≡ (if◌then◌else◌ (has stream seen) None (Some (streams_in (seen ++ stream ∷ [])))) }
{
    let five = stream == 5;
    let six = !five;
    if (five && found.five) || (six && found.six) {
        return None;
    }
    Some(SpoolStreams {
        five: found.five || five,
        six: found.six || six,
    })
}

// The streams of some values, distinct 5 and 6.
fn streams_in(values: &[Value]) -> Option<SpoolStreams>
    ensures { result ≡ option_map streams_in (numbers_behind 5 6 [] (items_view values.now)) }
{
    let mut found = SpoolStreams {
        five: false,
        six: false,
    };
    for value in values {
        let stream = number_in(value, 5, 6)?;
        found = with_stream(found, stream)?;
    }
    Some(found)
}

// The streams of a list of distinct 5 and 6.
pub(crate) fn streams_of(value: &Value) -> Option<SpoolStreams>
    ensures { result ≡ streams_of (view value.now) }
{
    streams_in(value.as_array()?.as_slice())
}
