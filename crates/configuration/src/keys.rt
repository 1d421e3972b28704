//! The keys of a table.
ghost use Rattle.std.specs.Prelude.{◌≡◌, map};
ghost use Rattle.std.specs.List.{list_any};
ghost use Rattle.std.specs.Str.{bytes_eq};
ghost use Rattle.toml.specs.View.{table_view};
ghost use Rattle.configuration.specs.Values.{has_other};

use toml::Table;

// Whether the key is one of these.
fn is_one_of(key: &str, known: &[&str]) -> bool
    ensures { result ≡ list_any (bytes_eq key.now) (map (λ k. k.now) known.now) }
{
    for word in known {
        if key == *word {
            return true;
        }
    }
    false
}

// Whether a table has a key that isn't one of these.
pub(crate) fn has_other_key(table: &Table, known: &[&str]) -> bool
    ensures { result ≡ has_other (map (λ k. k.now) known.now) (table_view table.now) }
{
    for (key, _value) in table.iter() {
        if !is_one_of(key.as_str(), known) {
            return true;
        }
    }
    false
}
