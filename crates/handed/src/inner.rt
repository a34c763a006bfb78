// A handed time as a record, for those that judge a record by its day and microsecond; and a decimal day by itself, taken apart.
ghost use Rattle.std.specs.Prelude.{◌≡◌, ◌/◌, ◌%◌};
ghost use Rattle.axis.specs.Meaning.{day_at, day_micros};
ghost use Rattle.scales.specs.Meaning.{record_of};
ghost use Rattle.handed.specs.Meaning.{Took};
ghost use Rattle.handed.specs.Laid.{outside_of, Lays, not_laid};

use super::{Handed, Unread, Untaken, first_of, read_days, time_of};
use scales::{Record, Refusal, Scale, Time};

// Why a handed time is no record: a decimal day, with its scale, that is not finite.
#[derive(Clone, Copy)]
pub struct NotFinite(pub Scale);

impl From<NotFinite> for Refusal {
    ghost from_gives = { λ e f. f ≡ not_laid e };

    fn from(_e: NotFinite) -> Refusal {
        Refusal::DecimalNotFinite
    }
}

// ---- as a record

// A record outside its scale's span.
pub fn outside(scale: Scale) -> Record
    ensures { result ≡ outside_of scale }
{
    Record::new(scale, 60000, 0)
}

// The record of a scale at place n of the axis of microseconds.
fn record_of(scale: Scale, n: u64) -> Record
    ensures { result ≡ record_of scale (day_at (n / day_micros)) (n % day_micros) }
{
    let day = axis::day_at((n / 86_400_000_000) as u32);
    Record::new(scale, day, n % 86_400_000_000)
}

// The day is read here and not by way of a count, which would be made only to be divided again.
fn lay_decimal(day: f64, scale: Scale) -> Result<Record, NotFinite>
    ensures { Lays (Handed.Decimal day scale) result }
{
    match read_days(first_of(scale), day) {
        Ok(n) => Ok(record_of(scale, n)),
        Err(Unread::Outside) => Ok(outside(scale)),
        Err(Unread::NotFinite) => Err(NotFinite(scale)),
    }
}

// A record that nothing has judged yet; a decimal day outside its span becomes a record outside it.
pub fn lay(h: Handed) -> Result<Record, NotFinite>
    ensures { Lays h result }
{
    match h {
        Handed::Record(r) => Ok(r),
        Handed::Decimal(day, scale) => lay_decimal(day, scale),
    }
}

// ---- a decimal day by itself

// A decimal day of a scale, taken apart.
fn take_day(scale: Scale, day: f64) -> Result<Time, Untaken>
    ensures { Took (Handed.Decimal day scale) result }
{
    match read_days(first_of(scale), day) {
        Ok(n) => Ok(time_of(scale, n)),
        Err(Unread::NotFinite) => Err(Untaken::NotFinite(scale)),
        Err(Unread::Outside) => Err(Untaken::Outside(scale)),
    }
}

// A decimal day, taken apart. Each scale reads by a call of its own, with its first day a constant: a record that is handed in
// does not pay for the reading then.
pub fn take_decimal(day: f64, scale: Scale) -> Result<Time, Untaken>
    ensures { Took (Handed.Decimal day scale) result }
{
    match scale {
        Scale::Tai => take_day(Scale::Tai, day),
        Scale::Utc => take_day(Scale::Utc, day),
        Scale::Gps => take_day(Scale::Gps, day),
    }
}
