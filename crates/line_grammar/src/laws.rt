//! Laws of the grammar of lines, for proofs to cite. Each function is empty: what it ensures holds of the definitions.

ghost use Rattle.std.specs.Prelude.{◌≡◌, ℕ, nat_eq, true, false, List, length, codes, Err};
ghost use Rattle.std.specs.List.{starts_with};
ghost use Rattle.line_grammar.specs.Grammar.{ReadAs};
ghost use Rattle.line_grammar.specs.Lines.{operator_words, feed_lines, script_lines, all_lines};
ghost use Rattle.line_grammar.specs.Reading.{read};

/// What is computed of a text is exactly what the grammar relates: the value that the text says, and the only one, or the
/// place at which it leaves the grammar.
pub fn reading_is_exact()
    ensures operator { (text : List ℕ) → ReadAs operator_words text (read operator_words (length text) text) }
    ensures feed { (text : List ℕ) → ReadAs feed_lines text (read feed_lines (length text) text) }
    ensures script { (text : List ℕ) → ReadAs script_lines text (read script_lines (length text) text) }
    ensures all { (text : List ℕ) → ReadAs all_lines text (read all_lines (length text) text) }
{}

/// `feed` reads each line as it is among all lines, but for those that begin with `W`: these it refuses at place 0.
pub fn feed_takes_no_watch()
    ensures other { (line : List ℕ) → starts_with nat_eq line (codes "W") ≡ false
        → read feed_lines (length line) line ≡ read all_lines (length line) line }
    ensures watch { (line : List ℕ) → starts_with nat_eq line (codes "W") ≡ true → read feed_lines (length line) line ≡ Err 0 }
{}
