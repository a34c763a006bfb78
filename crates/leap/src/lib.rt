// The leap list: its acceptance, and the list as published. A list is lent as two slices, the steps' days and TAI minus UTC
// from each day on, with its last day E.
#![tactic(auto)]

ghost use Rattle.std.specs.Prelude.{◌≡◌, true, pos, get_or, drop};
ghost use Rattle.leap.specs.Meaning.{LeapList, list_of, accepted, accepted_or, published_days, published_offsets};
ghost use Rattle.leap.specs.Follow.{Tested, rest};

use scales::{Refusal, Utc};
use std::marker::Model;

pub mod inner;

// A list as it is lent: nothing is known of it.
#[derive(Drop)]
pub struct List<'a> {
    days: &'a [i64],
    offsets: &'a [u64],
    last: i64,
}

impl<'a> Model for List<'a> {
    ghost Value = { LeapList };

    ghost view = { λ l. record { days = l.days.now; offsets = l.offsets.now; last = l.last } };
}

// A list that is accepted.
#[derive(Drop)]
pub struct Accepted<'a> {
    list: List<'a>,
}

impl<'a> Model for Accepted<'a> {
    ghost Value = { LeapList };

    ghost view = { λ a. a.list };

    ghost invariant = { λ a. accepted a.list.days a.list.offsets a.list.last ≡ true };
}

impl<'a> Accepted<'a> {
    pub fn list(&self) -> &List<'a>
        ensures same { result.now ≡ self.now }
        ensures accepted { accepted self.now.days self.now.offsets self.now.last ≡ true }
    {
        &self.list
    }
}

// The places of days -10227 and 36524.
const FIRST: u64 = 29773;

const LAST: u64 = 76524;

// May each step after the first follow the one before it? Offsets count up from the first, which is 10, so that the offset that
// a step must have tells its place in the list. From the last step down, only the last day is held to the end, and each day
// stays in the calendar's days.
fn steps_follow(days: &[i64], offsets: &[u64], end: i64) -> bool
    requires { Tested days.now offsets.now end }
    ensures { result ≡ rest end (get_or days.now 0 (pos 0)) 10 (drop 1 days.now) (drop 1 offsets.now) }
{
    if end < days[days.len() - 1] {
        return false;
    }
    for i in (1..days.len()).rev() {
        if offsets[i] != i as u64 + 10 {
            return false;
        }
        let d = days[i];
        if d <= days[i - 1] {
            return false;
        }
        if d <= Utc::FIRST_DAY {
            return false;
        }
        if !calendar::inner::is_first(d) {
            return false;
        }
    }
    true
}

impl<'a> List<'a> {
    pub fn new(days: &'a [i64], offsets: &'a [u64], last: i64) -> List<'a>
        ensures { result ≡ list_of days.now offsets.now last }
    {
        List {
            days,
            offsets,
            last,
        }
    }

    // The last day E.
    pub fn last(&self) -> i64
        ensures { result ≡ self.now.last }
    {
        self.last
    }

    // Is the list accepted?
    pub fn is_accepted(&self) -> bool
        ensures { result ≡ accepted self.now.days self.now.offsets self.now.last }
    {
        let n = self.days.len();
        if n < 1 {
            return false;
        }
        if 64 < n {
            return false;
        }
        if self.offsets.len() != n {
            return false;
        }
        let e = axis::place_of_day(self.last);
        if e < FIRST {
            return false;
        }
        if LAST < e {
            return false;
        }
        // Both are read before either is tested: so the compiler has registers left for the steps' loop where a tick is dated.
        let offset = self.offsets[0];
        let first = inner::step_day(self.days, 0);
        if first != FIRST {
            return false;
        }
        if offset != 10 {
            return false;
        }
        steps_follow(self.days, self.offsets, axis::day_at((e + 1) as u32))
    }

    // The list, where it is accepted, or 5.
    pub fn accepted(&self) -> Result<Accepted<'a>, Refusal>
        ensures { result ≡ accepted_or self.now }
    {
        if !self.is_accepted() {
            return Err(Refusal::ListNotAccepted);
        }
        Ok(inner::known(self))
    }
}

// The last day of the published list: 31 December 2024.
pub const PUBLISHED_LAST: i64 = 9131;

// The days of the 28 published steps. A program takes them once and lends them to each call.
pub fn published_days() -> [i64; 28]
    ensures { result ≡ published_days }
{
    [
        -10227, -10045, -9861, -9496, -9131, -8766, -8400, -8035, -7670, -7305, -6758, -6393,
        -6028, -5297, -4383, -3652, -3287, -2740, -2375, -2010, -1461, -914, -365, 2192, 3288,
        4565, 5660, 6210,
    ]
}

// TAI minus UTC from each of them on.
pub fn published_offsets() -> [u64; 28]
    ensures { result ≡ published_offsets }
{
    [
        10, 11, 12, 13, 14, 15, 16, 17, 18, 19, 20, 21, 22, 23, 24, 25, 26, 27, 28, 29, 30, 31, 32,
        33, 34, 35, 36, 37,
    ]
}
