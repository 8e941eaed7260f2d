//! What a block says of the zone of a time.
ghost use Rattle.std.specs.Prelude.{◌≡◌};
ghost use Rattle.mdf_blocks.specs.Tables.{daylight_minutes, time_flags, zone_minutes};

use crate::zone::Zone;

/// How many minutes the time of the zone is ahead.
pub fn zone_minutes(zone: Zone) -> i16
    ensures { result ≡ zone_minutes zone }
{
    match zone {
        Zone::Utc | Zone::Local => 0,
        Zone::Offsets { zone, .. } => zone,
    }
}

/// How many minutes the daylight saving time is ahead of that.
pub fn daylight_minutes(zone: Zone) -> i16
    ensures { result ≡ daylight_minutes zone }
{
    match zone {
        Zone::Utc | Zone::Local => 0,
        Zone::Offsets { daylight, .. } => daylight,
    }
}

/// What is known of them.
pub fn time_flags(zone: Zone) -> u8
    ensures { result ≡ time_flags zone }
{
    match zone {
        Zone::Utc => 0,
        Zone::Local => 1,
        Zone::Offsets { .. } => 2,
    }
}
