// Decimal days: an f64 of days read and written.
#![tactic(auto)]

ghost use Rattle.std.specs.Prelude.{◌≡◌, ◌/◌, ◌^◌, ◌<◌};
ghost use Rattle.axis.specs.Meaning.{micros_at};
ghost use Rattle.scales.specs.Meaning.{slip, bound, time_scale, time_count};
ghost use Rattle.decimal.specs.Meaning.{DayOf, read_of, WroteDay};
ghost use Rattle.decimal.specs.Parts.{Imaged};

use handed::Handed;
use scales::{Gps, Record, Refusal, Refused, Scale, Tai, Time, Utc};

// The record that a decimal day stands for.
pub fn read(day: f64, scale: Scale) -> Result<Record, Refused>
    ensures { slip result ≡ read_of day scale }
{
    Ok(handed::inner::take_decimal(day, scale)?.to_record())
}

// ---- writing

// The decimal day at place n of the axis of microseconds.
fn day_of(n: u64) -> f64
    requires { n < 2 ^ 53 }
    ensures { DayOf (micros_at n) result }
{
    if n < 3_456_000_000_000_000 {
        return double::inner::quotient(true, 3_456_000_000_000_000 - n, 86_400_000_000);
    }
    double::inner::quotient(false, n - 3_456_000_000_000_000, 86_400_000_000)
}

// The same of a count that holds `bound` microseconds a day; second 60 has no decimal day.
fn write_count(bound: u64, count: u64) -> Result<f64, Refusal>
    requires { (0 < bound) × (count / bound < 100000) }
    ensures { Imaged bound count result }
{
    let micro = count % bound;
    if 86_400_000_000 <= micro {
        return Err(Refusal::NoImage);
    }
    Ok(day_of(count / bound * 86_400_000_000 + micro))
}

fn write_time(t: Time) -> Result<f64, Refusal>
    requires { time_count t / bound (time_scale t) < 100000 }
    ensures { Imaged (bound (time_scale t)) (time_count t) result }
{
    match t {
        Time::Tai(n) => write_count(Tai::BOUND, n.0),
        Time::Utc(n) => write_count(Utc::BOUND, n.0),
        Time::Gps(n) => write_count(Gps::BOUND, n.0),
    }
}

// The decimal day of a handed time.
pub fn write(h: Handed) -> Result<f64, Refusal>
    ensures { WroteDay h result }
{
    write_time(handed::take(h)?)
}
