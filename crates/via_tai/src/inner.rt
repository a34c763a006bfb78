// The cores: a list that is used was accepted before, and is not tested here. Every change goes by way of a TAI count, whose span
// is not tested: `from_..` gives it, `to_..` takes it.
ghost use Rattle.std.specs.Prelude.{◌≡◌, true, false, ◌<◌, ◌≤◌};
ghost use Rattle.axis.specs.Meaning.{day_at, micros_at};
ghost use Rattle.scales.specs.Meaning.{outcome, dated, slip_tai, slip_utc, slip_gps, time_scale, time_count};
ghost use Rattle.leap.specs.Meaning.{accepted, has_micro, is_expired_tai};
ghost use Rattle.via_tai.specs.Meaning.{from_tai, from_gps, from_utc, to_tai, to_gps, to_utc, of_count, from_scale, is_utc};
ghost use Rattle.via_tai.specs.Ways.{Left, OnTheWay};

use leap::{Accepted, List};
use scales::{Gps, Refusal, Scale, Tai, Time, Utc};

// The places of days -10227, -7300 and 36524.
const FIRST: u64 = 29773;

const GPS_FIRST: u64 = 32700;

const LAST: u64 = 76524;

const SECOND: u64 = 1_000_000;

// ---- to the TAI count

pub fn from_tai(t: Tai) -> Result<Tai, Refusal>
    ensures { Left (of_count Scale.Tai t.0 from_tai) result }
{
    let day = t.0 / Tai::BOUND;
    if day < FIRST || LAST < day {
        return Err(Refusal::OutsideSpan);
    }
    Ok(t)
}

pub fn from_gps(t: Gps) -> Result<Tai, Refusal>
    ensures { Left (of_count Scale.Gps t.0 from_gps) result }
{
    let n = t.0;
    let day = n / Gps::BOUND;
    if day < GPS_FIRST || LAST < day {
        return Err(Refusal::OutsideSpan);
    }
    Ok(Tai(n + 19 * SECOND))
}

// Has the UTC day at a place this microsecond? From 86,400,000,000 up only where the next day is a step.
pub fn has_micro(list: &List, day: u64, micro: u64) -> bool
    requires { day < 99999 }
    ensures { result ≡ has_micro list.now.days (day_at day) micro }
{
    micro < Tai::BOUND || leap::inner::is_step(list, day + 1)
}

pub fn from_utc(t: Utc, list: &Accepted) -> Result<Tai, Refusal>
    ensures { Left (of_count Scale.Utc t.0 (from_utc list.now.days list.now.offsets list.now.last)) result }
{
    let list = list.list();
    let day = t.0 / Utc::BOUND;
    let micro = t.0 % Utc::BOUND;
    if day < FIRST || LAST < day {
        return Err(Refusal::OutsideSpan);
    }
    if axis::place_of_day(list.last()) < day {
        return Err(Refusal::ListExpired);
    }
    if !has_micro(list, day, micro) {
        return Err(Refusal::SecondLacking);
    }
    let offset = leap::inner::offset_on(list, day);
    Ok(Tai(day * Tai::BOUND + micro + offset * SECOND))
}

// A time whose scale is known only when the program runs.
pub fn from_time(t: Time, list: &List) -> Result<Tai, Refusal>
    requires { is_utc (time_scale t) ≡ true → accepted list.now.days list.now.offsets list.now.last ≡ true }
    ensures { Left (of_count (time_scale t) (time_count t) (from_scale (time_scale t) list.now.days list.now.offsets list.now.last)) result }
{
    match t {
        Time::Tai(n) => from_tai(n),
        Time::Utc(n) => from_utc(n, &leap::inner::known(list)),
        Time::Gps(n) => from_gps(n),
    }
}

// ---- from the TAI count

pub fn to_tai(c: Tai) -> Result<Tai, Refusal>
    requires { OnTheWay c.0 }
    ensures { slip_tai result ≡ dated Scale.Tai (outcome (to_tai (micros_at c.0))) }
{
    if LAST < c.0 / Tai::BOUND {
        return Err(Refusal::ResultOutside);
    }
    Ok(c)
}

pub fn to_gps(c: Tai) -> Result<Gps, Refusal>
    requires { OnTheWay c.0 }
    ensures { slip_gps result ≡ dated Scale.Gps (outcome (to_gps (micros_at c.0))) }
{
    let n = c.0 - 19 * SECOND;
    let day = n / Gps::BOUND;
    if day < GPS_FIRST || LAST < day {
        return Err(Refusal::ResultOutside);
    }
    Ok(Gps(n))
}

// Is a TAI count at or after 00:00:00 UTC on the day after the last?
pub fn is_expired(c: Tai, list: &Accepted) -> bool
    ensures { result ≡ is_expired_tai list.now.days list.now.offsets list.now.last (micros_at c.0) }
{
    let list = list.list();
    let next = axis::place_of_day(list.last()) + 1;
    let offset = leap::inner::offset_on(list, next);
    next * Tai::BOUND + offset * SECOND <= c.0
}

// Of a count that is known not to be expired.
pub fn unexpired_to_utc(c: Tai, list: &Accepted) -> Result<Utc, Refusal>
    requires from_first { 10000000 ≤ c.0 }
    requires unexpired { is_expired_tai list.now.days list.now.offsets list.now.last (micros_at c.0) ≡ false }
    ensures { slip_utc result ≡ dated Scale.Utc (outcome (to_utc list.now.days list.now.offsets list.now.last (micros_at c.0))) }
{
    let list = list.list();
    if c.0 < FIRST * Tai::BOUND + 10 * SECOND {
        return Err(Refusal::ResultOutside);
    }
    Ok(leap::inner::utc_at(list, c))
}

pub fn to_utc(c: Tai, list: &Accepted) -> Result<Utc, Refusal>
    requires { 10000000 ≤ c.0 }
    ensures { slip_utc result ≡ dated Scale.Utc (outcome (to_utc list.now.days list.now.offsets list.now.last (micros_at c.0))) }
{
    if is_expired(c, list) {
        return Err(Refusal::ListExpired);
    }
    unexpired_to_utc(c, list)
}
