// Searches through a list that was accepted before, each from its end: they take the facts and test nothing.
ghost use Rattle.std.specs.Prelude.{◌≡◌, true, ◌+◌, ◌-◌, ◌*◌, ◌≤◌, ◌<◌, pos, length, get_or};
ghost use Rattle.axis.specs.Meaning.{place_of_day, day_at, micros_at};
ghost use Rattle.scales.specs.Meaning.{moment_at};
ghost use Rattle.leap.specs.Meaning.{accepted, offset_on, is_step, utc_of, utc_moment};
ghost use Rattle.leap.specs.Places.{plain_at, sixty_at};
ghost use Rattle.leap.specs.Steps.{Usable};

use crate::{Accepted, List};
use scales::{Scale, Tai, Utc};

const SECOND: u64 = 1_000_000;

// The list, which is known to be accepted: it is not tested.
pub fn known<'a>(list: &List<'a>) -> Accepted<'a>
    requires { accepted list.now.days list.now.offsets list.now.last ≡ true }
    ensures { result ≡ list.now }
{
    Accepted {
        list: List::new(list.days, list.offsets, list.last),
    }
}

// The place of step i's day.
pub fn step_day(days: &[i64], i: usize) -> u64
    requires { i < length days.now }
    ensures { result ≡ place_of_day (get_or days.now i (pos 0)) }
{
    axis::place_of_day(days[i])
}

// TAI minus UTC on the day at a place.
pub fn offset_on(list: &List, place: u64) -> u64
    requires { Usable list.now.days list.now.offsets × (place < 100000) }
    ensures { result ≡ offset_on list.now.days list.now.offsets (day_at place) }
{
    let offsets = list.offsets;
    for i in (0..list.days.len()).rev() {
        if step_day(list.days, i) <= place {
            return offsets[i];
        }
    }
    0
}

// Is the day at a place a step?
pub fn is_step(list: &List, place: u64) -> bool
    requires { (0 < place) × (place < 100000) }
    ensures { result ≡ is_step list.now.days (day_at place) }
{
    for i in (0..list.days.len()).rev() {
        if step_day(list.days, i) == place {
            return true;
        }
    }
    false
}

// The UTC count of TAI count t by the offset p.
fn plain_at(p: u64, t: u64) -> Utc
    requires { (p ≤ 100) × (p * 1000000 ≤ t) × (t < 8640000000000000) }
    ensures { moment_at Scale.Utc result.0 ≡ plain_at p t }
{
    let u = t - p * SECOND;
    Utc(u / Tai::BOUND * Utc::BOUND + u % Tai::BOUND)
}

// In second 60 of the day before step s, p - 1 still in force.
fn sixty_at(s: u64, p: u64, t: u64) -> Utc
    requires step { (0 < s) × (s ≤ 100000) × (1 ≤ p) × (p ≤ 100) }
    requires within_second { (s * 86400000000 + (p - 1) * 1000000 ≤ t) × (t < s * 86400000000 + p * 1000000) }
    ensures { moment_at Scale.Utc result.0 ≡ sixty_at s p t }
{
    let u = t - (p - 1) * SECOND;
    Utc((s - 1) * Utc::BOUND + Tai::BOUND + u % Tai::BOUND)
}

// The UTC time of a TAI time.
pub fn utc_at(list: &List, t: Tai) -> Utc
    requires usable { Usable list.now.days list.now.offsets }
    requires in_axis { (10000000 ≤ t.0) × (t.0 < 8640000000000000) }
    ensures { utc_moment result ≡ utc_of list.now.days list.now.offsets (micros_at t.0) }
{
    let c = t.0;
    let offsets = list.offsets;
    for i in (0..list.days.len()).rev() {
        let s = step_day(list.days, i);
        let p = offsets[i];
        let start = s * Tai::BOUND + p * SECOND;
        if start <= c {
            return plain_at(p, c);
        }
        if start <= c + SECOND {
            return sixty_at(s, p, c);
        }
    }
    plain_at(10, c)
}
