//! Laws of the definitions: each is the contract of a function that does nothing.
ghost use Rattle.value_tables.specs.Places.{JoinedHaveLength, ListedAreJoined};
ghost use Rattle.value_tables.specs.Places.{ValuesStandAtPlaces};

/// A sample of a list has as many bytes of entries as the list says.
pub fn joined_have_length()
    ensures { JoinedHaveLength }
{}

/// The entries that a list has are all entries of its samples.
pub fn listed_are_joined()
    ensures { ListedAreJoined }
{}

/// The bytes of a column stand at its place among those of a sample, and end within them.
pub fn values_stand_at_places()
    ensures { ValuesStandAtPlaces }
{}
