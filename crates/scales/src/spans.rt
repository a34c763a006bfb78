// The one test of a span, and counts made and taken apart, for all three scales.
ghost use Rattle.std.specs.Prelude.{◌≡◌};
ghost use Rattle.scales.specs.Meaning.{record_at, time_at};
ghost use Rattle.scales.specs.Place.{span_of, fit_of};

use crate::{Gps, Mark, Record, Refusal, Refused, Scale, Tai, Time, Utc};

// A span: its first and last day, and the microseconds of a day.
#[derive(Clone, Copy)]
pub struct Span {
    pub first: i64,
    pub last: i64,
    pub bound: u64,
}

fn span_of(scale: Scale) -> Span
    ensures { result ≡ span_of scale }
{
    match scale {
        Scale::Tai => Span {
            first: Tai::FIRST_DAY,
            last: Tai::LAST_DAY,
            bound: Tai::BOUND,
        },
        Scale::Utc => Span {
            first: Utc::FIRST_DAY,
            last: Utc::LAST_DAY,
            bound: Utc::BOUND,
        },
        Scale::Gps => Span {
            first: Gps::FIRST_DAY,
            last: Gps::LAST_DAY,
            bound: Gps::BOUND,
        },
    }
}

// The count of a day and a microsecond of a scale, or 7 outside its span.
pub fn count_of(scale: Scale, day: i64, micro: u64) -> Result<u64, Refused>
    ensures { result ≡ fit_of scale day micro }
{
    let span = span_of(scale);
    let bound = span.bound;
    if !axis::is_between(span.first, day, span.last) {
        return Err(Refusal::OutsideSpan.of(scale));
    }
    if bound <= micro {
        return Err(Refusal::OutsideSpan.of(scale));
    }
    Ok(axis::place_of_day(day) * bound + micro)
}

// The record of a count, plain. This function, `Record::new` and `Record::with_mark` are the only ones that build a record.
pub fn record_at(scale: Scale, count: u64) -> Record
    ensures { result ≡ record_at scale count }
{
    let bound = span_of(scale).bound;
    let day = axis::day_at((count / bound) as u32);
    Record {
        scale,
        day,
        micro: count % bound,
        mark: Mark::Plain,
    }
}

// The time of a count.
pub fn time_at(scale: Scale, count: u64) -> Time
    ensures { result ≡ time_at scale count }
{
    match scale {
        Scale::Tai => Time::Tai(Tai(count)),
        Scale::Utc => Time::Utc(Utc(count)),
        Scale::Gps => Time::Gps(Gps(count)),
    }
}
