//! The escapes in a text between quotes are undone, and its bytes become characters.
ghost use Rattle.std.specs.Prelude.{◌≡◌, ◌<◌, ◌∷◌, [], length, IfOk, MatchOption, encode_utf8_all};
ghost use Rattle.std.specs.String.{string_bytes};
ghost use Rattle.a2l_text.specs.Texts.{unescaped, is_pair, escaped, IsDecoded};

use std::alloc::{AllocError, Global};

/// What a text says, of the bytes between its quotes: a doubled quote and `\"` are a quote, `\\` is
/// a backslash, `\n` a line feed and `\t` a tab, and any other backslash stays. Bytes that are
/// UTF-8 are taken as it, others as ISO 8859-1.
pub fn text_of(alloc: Global, quoted: &[u8]) -> Result<String, AllocError>
    ensures { IfOk result (λ text. IsDecoded (unescaped quoted.now) (string_bytes text)) }
{
    let bytes = unescape(alloc, quoted)?;
    decode(alloc, &bytes)
}

fn decode(alloc: Global, bytes: &[u8]) -> Result<String, AllocError>
    ensures { IfOk result (λ text. IsDecoded bytes.now (string_bytes text)) }
{
    match std::str::from_utf8(bytes) {
        Ok(text) => String::from_str(alloc, text),
        Err(_) => decode_latin(alloc, bytes),
    }
}

/// The text of bytes in ISO 8859-1.
fn decode_latin(alloc: Global, bytes: &[u8]) -> Result<String, AllocError>
    ensures { IfOk result (λ text. string_bytes text ≡ encode_utf8_all bytes.now) }
{
    let mut text = String::new(alloc);
    for byte in bytes {
        text.push(char::from(*byte))?;
    }
    Ok(text)
}

fn unescape(alloc: Global, quoted: &[u8]) -> Result<Vec<u8>, AllocError>
    ensures { IfOk result (λ bytes. bytes.items ≡ unescaped quoted.now) }
{
    let mut bytes = Vec::with_capacity(alloc, quoted.len())?;
    let mut rest = quoted;
    while let Some((byte, behind)) = next_byte(rest) {
        bytes.push(byte)?;
        rest = behind;
    }
    Ok(bytes)
}

/// The first byte that a text says, and the text behind it.
fn next_byte(text: &[u8]) -> Option<(u8, &[u8])>
    ensures byte { MatchOption result (text.now ≡ [])
        (λ p. unescaped text.now ≡ p.0 ∷ unescaped p.1.now) }
    ensures shorter { MatchOption result (text.now ≡ [])
        (λ p. length p.1.now < length text.now) }
{
    let (first, behind) = text.split_first()?;
    let Some((second, rest)) = behind.split_first() else {
        return Some((*first, behind));
    };
    if is_pair(*first, *second) {
        return Some((escaped(*second), rest));
    }
    Some((*first, behind))
}

fn is_pair(first: u8, second: u8) -> bool
    ensures { result ≡ is_pair first second }
{
    if first == b'"' {
        return second == b'"';
    }
    first == b'\\' && matches!(second, b'"' | b'\\' | b'n' | b't')
}

fn escaped(second: u8) -> u8
    ensures { result ≡ escaped second }
{
    match second {
        b'n' => b'\n',
        b't' => b'\t',
        _ => second,
    }
}
