//! What words stand for, by tables.

/// What a word stands for by a table.
pub fn of_name<T: Copy>(table: &[(&str, T)], word: &str) -> Option<T> {
    for row in table {
        if row.0 == word {
            return Some(row.1);
        }
    }
    None
}
