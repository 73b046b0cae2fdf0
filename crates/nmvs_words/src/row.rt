//! Rows of words.
ghost use Rattle.std.specs.Prelude.{◌≡◌, find, option_map};
ghost use Rattle.std.specs.Str.{bytes_eq};

/// The value of the row with this word.
pub fn named<T: Copy>(rows: &[(&str, T)], word: &[u8]) -> Option<T>
    ensures { result ≡ option_map (λ row. row.1) (find (λ row. bytes_eq word.now row.0.now) rows.now) }
{
    for (name, value) in rows {
        if word == name.as_bytes() {
            return Some(*value);
        }
    }
    None
}
