//! What follows from the definitions.
ghost use Rattle.slave_channels.specs.AccountLaws.{MeasurementsAddUp, TotalsAddUp};

/// The totals of a list add up, modulo 2^64: due is written, dropped and left together.
pub fn totals_add_up()
    ensures { TotalsAddUp }
{}

/// The sums of the measurements add up to that of all.
pub fn measurements_add_up()
    ensures { MeasurementsAddUp }
{}
