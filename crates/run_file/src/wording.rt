//! Reads the words of a step. The image of a trigger stays a word.
ghost use Rattle.std.specs.Prelude.{◌≡◌, ◌≤◌, ◌∷◌, [], IfSome, MatchOption, option_map};
ghost use Rattle.std.specs.Str.{all_ascii_digits};
ghost use Rattle.run_file.specs.StepOf.{is_plain, number_of, pump_of, switch_of, trigger_of};
ghost use Rattle.run_file.specs.StepOf.{verb_switch, wording_of, words_of};
ghost use Rattle.run_file.specs.Inner.{wording_data};

/// A step in words: of an image, its word.
#[derive(Clone, Copy)]
pub enum Wording<'a> {
    Trigger {
        channel: u8,
        stamp: u32,
        digits: &'a str,
    },
    Start {
        channel: u8,
        list: u8,
    },
    Stop {
        channel: u8,
        list: u8,
    },
    Pump,
}

/// The words of a step, for the event channels from 0 to `last`; none if the text is no step,
/// whatever an image says.
pub fn wording_of(last: u8, text: &str) -> Option<Wording<'_>>
    ensures value { option_map wording_data result ≡ wording_of last text.now }
{
    let Some((verb, rest)) = cut(text) else {
        return pump_of(text);
    };
    let Some((channel, rest)) = cut(rest) else {
        return None;
    };
    let Some((stamp, image)) = cut(rest) else {
        return switch_of(last, verb, channel, rest);
    };
    let None = cut(image) else {
        return None;
    };
    trigger_of(last, verb, channel, stamp, image)
}

/// A text before and behind its first space.
pub fn cut(text: &str) -> Option<(&str, &str)>
    ensures { MatchOption result (words_of text.now ≡ text.now ∷ [])
        (λ parts. words_of text.now ≡ parts.0.now ∷ words_of parts.1.now) }
{
    text.split_once(' ')
}

/// The step of one word.
fn pump_of(verb: &str) -> Option<Wording<'_>>
    ensures { option_map wording_data result ≡ pump_of verb.now }
{
    if verb == "pump" {
        Some(Wording::Pump)
    } else {
        None
    }
}

/// The step of a verb, an event channel and a DAQ list.
fn switch_of<'a>(last: u8, verb: &'a str, channel: &str, list: &str) -> Option<Wording<'a>>
    ensures { option_map wording_data result ≡ switch_of last verb.now channel.now list.now }
{
    let channel = number_of(channel, last as u32)?;
    let list = number_of(list, 255)?;
    verb_switch(verb, channel as u8, list as u8)
}

/// The step of a verb with its numbers.
fn verb_switch(verb: &str, channel: u8, list: u8) -> Option<Wording<'_>>
    ensures { option_map wording_data result ≡ verb_switch verb.now channel list }
{
    if verb == "start" {
        return Some(Wording::Start { channel, list });
    }
    if verb == "stop" {
        return Some(Wording::Stop { channel, list });
    }
    None
}

/// The step of a verb, an event channel, a timestamp and an image.
fn trigger_of<'a>(
    last: u8,
    verb: &str,
    channel: &str,
    stamp: &str,
    digits: &'a str,
) -> Option<Wording<'a>>
    ensures { option_map wording_data result
        ≡ trigger_of last verb.now channel.now stamp.now digits.now }
{
    if verb != "trigger" {
        return None;
    }
    let channel = number_of(channel, last as u32)?;
    let stamp = number_of(stamp, u32::MAX)?;
    Some(Wording::Trigger {
        channel: channel as u8,
        stamp,
        digits,
    })
}

/// The number of a word in decimal digits, without a leading zero, if it is at most `most`.
pub fn number_of(word: &str, most: u32) -> Option<u32>
    ensures value { result ≡ number_of most word.now }
    ensures within { IfSome result (λ n. n ≤ most) }
{
    if !is_plain(word.as_bytes()) {
        return None;
    }
    let Ok(number) = word.parse::<u32>() else {
        return None;
    };
    if number <= most { Some(number) } else { None }
}

/// Whether a word is decimal digits, without a leading zero but in `0` itself.
fn is_plain(word: &[u8]) -> bool
    ensures { result ≡ is_plain word.now }
{
    if word.is_empty() {
        return false;
    }
    if word.len() > 1 && word[0] == b'0' {
        return false;
    }
    are_digits(word)
}

/// Whether all bytes of a word are decimal digits.
fn are_digits(word: &[u8]) -> bool
    ensures { result ≡ all_ascii_digits word.now }
{
    word.iter().all(|byte| byte.is_ascii_digit())
}
