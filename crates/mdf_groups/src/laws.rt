//! Laws of the definitions: each is the contract of a function that does nothing.
ghost use Rattle.mdf_groups.specs.Laws.{FindsByChannel, FindsEach, HaveOneLength, RisenNeverFalls};
ghost use Rattle.mdf_groups.specs.Laws.{SecondsAreNumbers, SecondsNeverFall};

/// In the record of a sample MDF finds the raw value of each column, whether it stands among the
/// sample's bytes or behind them.
pub fn finds_each()
    ensures { FindsEach }
{}

/// At the place of the channel of a column MDF finds its raw value.
pub fn finds_by_channel()
    ensures { FindsByChannel }
{}

/// All records of a group have the same number of bytes.
pub fn have_one_length()
    ensures { HaveOneLength }
{}

/// Of two counts of ticks of one size, the later one is never shown earlier.
pub fn seconds_never_fall()
    ensures { SecondsNeverFall }
{}

/// So many ticks in seconds are a number, and neither an infinity times zero nor zero by zero.
pub fn seconds_are_numbers()
    ensures { SecondsAreNumbers }
{}

/// The time that a sample gets behind an earlier one is never less than that.
pub fn risen_never_falls()
    ensures { RisenNeverFalls }
{}
