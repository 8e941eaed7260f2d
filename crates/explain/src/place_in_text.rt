//! Where something stands in the text of a run.

/// The number of the first line, from 1, that begins with a key.
pub fn line_of_key(text: &str, key: &str) -> Option<usize> {
    for (i, line) in text.lines().enumerate() {
        if sets(line, key) {
            return i.checked_add(1);
        }
    }
    None
}

/// Whether a line sets a key.
fn sets(line: &str, key: &str) -> bool {
    match line.trim_start().strip_prefix(key) {
        Some(rest) => rest.trim_start().starts_with('='),
        None => false,
    }
}

/// The number of the first line, from 1, that has a string between quotes.
pub fn line_of_string(text: &str, string: &str) -> Option<usize> {
    for (i, line) in text.lines().enumerate() {
        if quotes(line, string) {
            return i.checked_add(1);
        }
    }
    None
}

/// Whether a line has a string between quotes.
fn quotes(line: &str, string: &str) -> bool {
    for part in line.split(['"', '\'']) {
        if part == string {
            return true;
        }
    }
    false
}
