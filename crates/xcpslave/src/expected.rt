//! The names of a session file's keys, and what the value of a bad one should be.
use session_file::BadKey;
use std::alloc::AllocError;

/// The name of a bad key, if it is one of a session file.
pub fn key_of(bad: BadKey) -> Option<&'static str> {
    match bad {
        BadKey::Unknown => None,
        BadKey::ImageLen => Some("image_len"),
        BadKey::Base => Some("base"),
        BadKey::Segments => Some("segments"),
        BadKey::Id => Some("id"),
        BadKey::StampSize => Some("stamp_size"),
        BadKey::Unit => Some("unit"),
        BadKey::Ticks => Some("ticks"),
        BadKey::MaxCto => Some("max_cto"),
        BadKey::MaxDto => Some("max_dto"),
        BadKey::Name => Some("name"),
        BadKey::A2lName => Some("a2l_name"),
        BadKey::Epk => Some("epk"),
        BadKey::A2l => Some("a2l"),
        BadKey::Events => Some("events"),
        BadKey::Script => Some("script"),
    }
}

/// Writes what the value of a bad key should be.
pub fn write_expected(why: &mut String, bad: BadKey) -> Result<(), AllocError> {
    why.push_str("expected: ")?;
    why.push_str(match bad {
        BadKey::Unknown => "a key of a session file\n",
        BadKey::ImageLen =>
            "an integer from 1 to 4096, or segments in place of image_len and base\n",
        BadKey::Base => "an integer from 0 to 4294967295, and no segments\n",
        BadKey::Segments => "an array of tables, one for each segment\n",
        BadKey::Id => "\"absolute\", \"byte\" or \"word\"\n",
        BadKey::StampSize => "1, 2 or 4\n",
        BadKey::Unit => "an integer from 0 to 9\n",
        BadKey::Ticks => "an integer from 1 to 65535\n",
        BadKey::MaxCto => "an integer from 8 to 255\n",
        BadKey::MaxDto => "an integer from 8 to 8192\n",
        BadKey::Name | BadKey::A2lName | BadKey::Epk | BadKey::A2l => "a string\n",
        BadKey::Events => "an array of tables, one for each event channel\n",
        BadKey::Script => "an array of at most 1000000 strings\n",
    })
}
