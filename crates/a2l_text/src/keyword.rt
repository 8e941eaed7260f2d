//! Keywords, which are told by all their bytes.
ghost use Rattle.std.specs.Prelude.{◌≡◌, bytes_eq, map};
ghost use Rattle.a2l_text.specs.Keywords.{meaning};

/// Whether a word is this keyword.
pub fn is(word: &[u8], keyword: &str) -> bool
    ensures { result ≡ bytes_eq word.now keyword.now }
{
    word == keyword.as_bytes()
}

/// What a word means by a table of keywords, if it is one of them.
pub fn meaning<T: Copy>(word: &[u8], table: &[(&str, T)]) -> Option<T>
    ensures { result ≡ meaning (map (λ row. (row.0.now, row.1)) table.now) word.now }
{
    for (keyword, meaning) in table {
        if is(word, keyword) {
            return Some(*meaning);
        }
    }
    None
}
