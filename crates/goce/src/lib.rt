// GOCE's correlation: the date of a 48-bit count, and the count of a time.
// Inside, the reference is a place in counts, a time one in microseconds, both of TAI, and an elapsed count k is held as k + 2^47.
#![tactic(auto)]

ghost use Rattle.std.specs.Prelude.{◌≡◌, true, ◌<◌};
ghost use Rattle.scales.specs.Meaning.{slip, slip_utc, count_slip};
ghost use Rattle.goce.specs.Meaning.{in_limits, date_of, obt_of};
ghost use Rattle.goce.specs.Places.{unmarked_of, place_of, base_at, Few, reckoned_at, time_at, ends_at, count_from, last_at, obt_from, Based, Windowed, Near};

use clock::Receipt;
use clock::inner::{Base, Ends, Reckoned};
use handed::Handed;
use leap::{Accepted, List};
use scales::{Mark, Record, Refusal, Refused, Scale, Utc};

// The counter has 48 bits.
const COUNTS: u64 = 281_474_976_710_656;

// The place of day 36525, in counts.
const SPAN_END: u64 = 433_308_303_360_000;

// UTC = Gradient x (OBT - OBT0) + Offset + UTC0, in counts of 1/65536 s and billionths, and the window: counts back and counts ahead.
#[derive(Clone, Copy)]
pub struct Correlation {
    pub obt0: u64,
    pub utc0: u64,
    pub offset: i64,
    pub gradient: u64,
    pub back: u64,
    pub ahead: u64,
}

// Each number but Offset is in its limits.
fn in_limits(c: Correlation) -> bool
    ensures { result ≡ in_limits c }
{
    c.obt0 < COUNTS
        && c.utc0 < COUNTS
        && 999_000_000 <= c.gradient
        && c.gradient <= 1_001_000_000
        && c.back <= 140_737_488_355_328
        && c.ahead < 140_737_488_355_328
}

// The place of the reference in UTC, in counts, where the correlation is accepted.
fn reference_of(c: Correlation) -> Option<u64>
    ensures { result ≡ place_of c }
{
    if !in_limits(c) {
        return None;
    }
    let offset = axis::place_of_counts(c.offset);
    if offset < 226_486_753_689_600 || 226_498_078_310_400 < offset {
        return None;
    }
    let s = c.utc0 + offset;
    if SPAN_END <= s {
        return None;
    }
    Some(s)
}

// The reference in TAI, where there is one: a second is 65,536 counts, and a day 5,662,310,400.
fn base_at(reference: Option<u64>, list: &Accepted) -> Option<Base>
    requires { Few reference }
    ensures { result ≡ base_at reference list.now.days list.now.offsets list.now.last }
{
    let p = reference?;
    let list = list.list();
    let day = p / 5_662_310_400;
    let offset = leap::inner::offset_on(list, day);
    let current = clock::inner::is_current(day, list.last());
    Some(Base {
        at: p + offset * 65_536,
        current,
    })
}

// Time(k), by way of nanoseconds: counts are split into seconds and fractions of 1/65536, so that no product needs more than 64 bits.
fn time_at(s: u64, g: u64, k: u64) -> u64
    requires { (Based s g) × (k < 281474976710656) }
    ensures { result ≡ time_at s g k }
{
    let seconds = s / 65_536 * 1_000_000_000 + k / 65_536 * g - 2_147_483_648 * g;
    let fractions = s % 65_536 * 1_000_000_000 + k % 65_536 * g;
    (seconds + fractions / 65_536) / 1_000
}

// The cover of a window, for the reference at s and the gradient g.
fn ends_of(s: u64, g: u64, back: u64, ahead: u64) -> Ends
    requires { Windowed s g back ahead }
    ensures { result ≡ ends_at s g back ahead }
{
    Ends {
        from: time_at(s, g, 140_737_488_355_328 - back),
        to: time_at(s, g, 140_737_488_355_328 + ahead),
    }
}

// ---- a count's date

// The elapsed count.
fn count(obt: u64, reference: u64) -> u64
    requires { (obt < 281474976710656) × (reference < 281474976710656) }
    ensures { result ≡ count_from obt reference }
{
    (obt + 422_212_465_065_984 - reference) % COUNTS
}

// What is reckoned of a count, for the reference at s.
fn reckon(c: Correlation, obt: u64, s: u64) -> Reckoned
    requires windowed { Windowed s c.gradient c.back c.ahead }
    requires obt_bound { (obt < 281474976710656) × (c.obt0 < 281474976710656) }
    ensures { result ≡ reckoned_at s c.gradient c.back c.ahead (count_from obt c.obt0) }
{
    let k = count(obt, c.obt0);
    let inside = clock::inner::in_window(140_737_488_355_328, c.back, c.ahead, k);
    let ends = ends_of(s, c.gradient, c.back, c.ahead);
    let at = time_at(s, c.gradient, k);
    Reckoned { inside, ends, at }
}

// The date of a count before it is marked.
fn dated(c: Correlation, obt: u64, receipt: Receipt, list: &List) -> Result<Utc, Refusal>
    ensures { slip_utc result ≡ unmarked_of c obt receipt.day receipt.micro list.now.days list.now.offsets list.now.last }
{
    if COUNTS <= obt {
        return Err(Refusal::FieldOver);
    }
    // Reckoned before the list's test, so that less is kept over it.
    let place = reference_of(c);
    let list = list.accepted()?;
    let base = base_at(place, &list).ok_or(Refusal::CorrelationNotAccepted)?;
    let k = reckon(c, obt, base.at);
    clock::inner::date_by_list(k, base.current, receipt, &list)
}

// The date of a count, received on a UTC day at a microsecond, marked with the reference count.
pub fn date(c: Correlation, obt: u64, receipt: Receipt, list: &List) -> Result<Record, Refused>
    ensures { slip result ≡ date_of c obt receipt.day receipt.micro list.now.days list.now.offsets list.now.last }
{
    let t = dated(c, obt, receipt, list).map_err(|f| f.of(Scale::Utc))?;
    Ok(t.to_record().with_mark(Mark::Correlated(c.obt0)))
}

// ---- the count of a time

// The last count whose time is not later than w, by two divisions: of the nanoseconds, and of what is left in 1/65536 of them.
fn last_at(s: u64, g: u64, w: u64) -> u64
    requires { Near s g w }
    ensures { result ≡ last_at s g w }
{
    let fraction = s % 65_536 * 1_000_000_000;
    let nanos = w * 1_000 + 999 + 2_147_483_648 * g
        - s / 65_536 * 1_000_000_000
        - fraction / 65_536;
    nanos / g * 65_536 + (nanos % g * 65_536 + 65_535 - fraction % 65_536) / g
}

// The counter at a count from OBT0.
fn obt_from(reference: u64, k: u64) -> u64
    requires { (reference < 281474976710656) × (k < 281474976710656) }
    ensures { result ≡ obt_from reference k }
{
    (reference + k + 140_737_488_355_328) % COUNTS
}

// The count of a handed time: the last of the window whose time is not later.
pub fn count_of(c: Correlation, h: Handed, list: &List) -> Result<u64, Refusal>
    ensures { count_slip result ≡ obt_of c h list.now.days list.now.offsets list.now.last }
{
    let Ok(list) = list.accepted() else {
        return Err(clock::inner::unaccepted(h, Refusal::ListNotAccepted));
    };
    let Some(base) = base_at(reference_of(c), &list) else {
        return Err(clock::inner::unaccepted(h, Refusal::CorrelationNotAccepted));
    };
    let v = ends_of(base.at, c.gradient, c.back, c.ahead);
    let w = clock::inner::turn_by_list(base.current, v, h, &list)?;
    Ok(obt_from(c.obt0, last_at(base.at, c.gradient, w)))
}
