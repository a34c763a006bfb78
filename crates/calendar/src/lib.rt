// The Gregorian calendar: the date of a day, the day of a date, and which days are firsts of months.
// Inside, days are counted from 1 January 1972 and months from January 1972.
#![tactic(auto)]

ghost use Rattle.std.specs.Prelude.{◌≡◌, ◌+◌, ◌-◌, ◌<◌, ◌≤◌};
ghost use Rattle.calendar.specs.Meaning.{leap, month_length, is_date, months_to, first_day, walk, date_at, date_slip, date_of_day, day_slip, day_of_date, is_first, all_firsts};
ghost use Rattle.calendar.specs.Formula.{march_year, scaled_of, first_in};

use scales::Refusal;

pub mod inner;

// A date: the month and the day of the month are counted from 1.
#[derive(Clone, Copy, PartialEq, Eq)]
pub struct Date {
    pub year: u64,
    pub month: u64,
    pub day: u64,
}

#[tactic(auto, unfolding(crate::specs::Meaning::leap))]
fn is_leap(y: u64) -> bool
    ensures { result ≡ leap y }
{
    y % 400 == 0 || (y % 100 != 0 && y % 4 == 0)
}

#[tactic(auto, unfolding(crate::specs::Meaning::month_length))]
fn month_length(y: u64, m: u64) -> u64
    ensures { result ≡ month_length y m }
{
    match m {
        2 if is_leap(y) => 29,
        2 => 28,
        4 | 6 | 9 | 11 => 30,
        _ => 31,
    }
}

#[tactic(auto, unfolding(crate::specs::Meaning::is_date))]
fn is_date(date: Date) -> bool
    ensures { result ≡ is_date date }
{
    date.year <= 9999
        && 1 <= date.month
        && date.month <= 12
        && 1 <= date.day
        && date.day <= month_length(date.year, date.month)
}

// ---- the formula: a year is taken from March on, so that a leap day is its last, and every fourth has one

// The March year of day n, from 1968 on.
fn march_year(n: u32) -> u32
    requires { n ≤ 46752 }
    ensures { result ≡ march_year n }
{
    (4 * n + 5607) / 1461
}

// Day n within its March year: 65536 times its month, 3 to 14, and 2141 times the days of the month before it.
fn scaled(n: u32) -> u32
    requires { n ≤ 46752 }
    ensures { result ≡ scaled_of n }
{
    (4 * n + 5607) % 1461 / 4 * 2141 + 197_913
}

fn date_at(n: u32) -> Date
    requires { n < 46752 }
    ensures { result ≡ date_at (walk 1536 0 n) }
{
    let year = u64::from(march_year(n));
    let s = u64::from(scaled(n));
    let month = s / 65536;
    let day = s % 65536 / 2141 + 1;
    if 12 < month {
        Date {
            year: year + 1969,
            month: month - 12,
            day,
        }
    } else {
        Date {
            year: year + 1968,
            month,
            day,
        }
    }
}

#[tactic(auto, using(crate::specs::Days::first_early, crate::specs::Days::first_late))]
fn is_first(day: i64) -> bool
    ensures { result ≡ is_first day }
{
    let place = axis::place_of_day(day);
    29773 <= place && place <= 76525 && inner::is_first(day)
}

// The first of a month of a March year, counted from 1 March 1968.
fn first_in(year: u32, month: u32) -> u32
    requires { (year < 132) × (3 ≤ month) × (month ≤ 14) }
    ensures { result ≡ first_in year month }
{
    1461 * year / 4 + (979 * month - 2919) / 32
}

// The days from 1 January 1972 to a date. January and February belong to the March year before.
fn days_to(year: u64, month: u64, day: u64) -> u32
    requires { (1972 ≤ year) × (year ≤ 2099) × (1 ≤ month) × (month ≤ 12) × (1 ≤ day) × (day ≤ 31) }
    ensures { result ≡ first_day (months_to year month) + (day - 1) }
{
    let y = year as u32 - 1968;
    let m = month as u32;
    let d = day as u32;
    if m < 3 {
        return first_in(y - 1, m + 12) + d - 1402;
    }
    first_in(y, m) + d - 1402
}

// The date of a day from 1 January 1972 to 31 December 2099.
#[tactic(auto, using(crate::specs::Days::date_early, crate::specs::Days::date_late, crate::specs::Days::date_within))]
pub fn date_of(day: i64) -> Result<Date, Refusal>
    ensures { date_slip result ≡ date_of_day day }
{
    let place = axis::place_of_day(day);
    if place < 29773 || 76524 < place {
        return Err(Refusal::OutsideSpan);
    }
    Ok(date_at((place - 29773) as u32))
}

// The day of a date.
#[tactic(auto, using(crate::specs::Days::day_lacks, crate::specs::Days::day_early, crate::specs::Days::day_late, crate::specs::Days::day_within))]
pub fn day_of(date: Date) -> Result<i64, Refusal>
    ensures { day_slip result ≡ day_of_date date }
{
    if !is_date(date) {
        return Err(Refusal::FieldOver);
    }
    if date.year < 1972 || 2099 < date.year {
        return Err(Refusal::OutsideSpan);
    }
    Ok(axis::day_at(days_to(date.year, date.month, date.day) + 29773))
}

// Are all these days firsts of months, January 1972 to January 2100?
pub fn all_firsts(days: &[i64]) -> bool
    ensures { result ≡ all_firsts days.now }
{
    days.iter().all(|day| is_first(*day))
}
