//! How the timestamps of a slave count.
ghost use Rattle.std.specs.Prelude.{◌≡◌, ◌^◌, ◌<◌, ◌≤◌, IfSome};
ghost use Rattle.capture_tables.specs.Clocks.{picoseconds_of, power_of, tick_of};

use captured_session::Form;
use measured_values::Tick;

/// How long a tick of the slave's clock is, if it tells that.
pub fn tick_of(form: Form) -> Option<Tick>
    ensures { result ≡ tick_of form }
{
    let power = power_of(form)?;
    if form.ticks == 0 {
        return None;
    }
    Some(Tick {
        mantissa: form.ticks as u32,
        exponent: power as i8 - 12,
    })
}

/// The same in picoseconds.
pub fn picoseconds_of(form: Form) -> Option<u64>
    ensures value { result ≡ picoseconds_of form }
    ensures some { IfSome result (λ picoseconds. 0 < picoseconds) }
{
    let power = power_of(form)?;
    if form.ticks == 0 {
        return None;
    }
    Some(form.ticks as u64 * 10u64.pow(power as u32))
}

/// Which power of ten of picoseconds its unit is, if it tells that.
fn power_of(form: Form) -> Option<u8>
    ensures value { result ≡ power_of form }
    ensures few { IfSome result (λ power. power ≤ 12) }
{
    match form.stamp / 16 {
        unit @ 0..=9 => Some(unit + 3),
        unit @ 10..=12 => Some(unit - 10),
        _ => None,
    }
}

/// How many ticks timestamps of so many bytes count before they wrap.
pub fn wrap_of(len: usize) -> u64
    ensures byte { len ≡ 1 → result ≡ 2 ^ 8 }
    ensures word { len ≡ 2 → result ≡ 2 ^ 16 }
    ensures dword { len ≡ 4 → result ≡ 2 ^ 32 }
    ensures some { 0 < result }
    ensures limit { result ≤ 2 ^ 32 }
{
    match len {
        1 => 256,
        2 => 65_536,
        _ => 4_294_967_296,
    }
}
