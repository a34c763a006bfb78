// The SBT correlation: the date of a tick, and the tick of a time.
// Inside, a time is its place on the clock's axis of microseconds, TAI under a UTC correlation, and an elapsed count k is held as
// k + 2^31.
#![tactic(auto)]

ghost use Rattle.std.specs.Prelude.{◌≡◌, true, ◌<◌};
ghost use Rattle.scales.specs.Meaning.{slip, slip_utc, tick_slip};
ghost use Rattle.via_tai.specs.Meaning.{is_utc};
ghost use Rattle.sbt.specs.Meaning.{date_of, tick_of};
ghost use Rattle.sbt.specs.Places.{unmarked_of, place_of, base_of, reckoned_at, time_at, ends_at, count_from, last_at, tick_from, Based, Windowed, Near};
ghost use Rattle.sbt.specs.Found.{Lasts};

pub mod inner;

use clock::Receipt;
use clock::inner::{Base, Ends, Reckoned};
use handed::Handed;
use leap::{Accepted, List};
use scales::{Mark, Record, Refusal, Refused, Scale, Tick, Utc};

// A reference tick and its time, the period in picoseconds, and the window: ticks back and ticks ahead.
#[derive(Clone, Copy)]
pub struct Correlation {
    pub tick: Tick,
    pub scale: Scale,
    pub day: i64,
    pub micro: u64,
    pub period: u64,
    pub back: u64,
    pub ahead: u64,
}

// The place of the reference in its own scale, where the correlation is accepted.
fn reference_of(c: Correlation) -> Option<u64>
    ensures { result ≡ place_of c }
{
    if c.period < 3_906_000_000 || 3_906_500_000 < c.period {
        return None;
    }
    if 2_147_483_648 < c.back || 2_147_483_647 < c.ahead {
        return None;
    }
    let scale = c.scale;
    clock::inner::place_in(scale, c.day, c.micro)
}

// The reference of a UTC correlation in TAI, where it is accepted.
fn base_of(c: Correlation, list: &Accepted) -> Option<Base>
    requires { is_utc c.scale ≡ true }
    ensures { result ≡ base_of c list.now.days list.now.offsets list.now.last }
{
    let p = reference_of(c)?;
    let list = list.list();
    let day = p / 86_400_000_000;
    let offset = leap::inner::offset_on(list, day);
    let current = clock::inner::is_current(day, list.last());
    Some(Base {
        at: p + offset * 1_000_000,
        current,
    })
}

// Time(k). A time before the reference at r is rounded away from it, towards the past.
fn time_at(r: u64, p: u64, k: u64) -> u64
    requires { (Based r p) × (k < 4294967296) }
    ensures { result ≡ time_at r p k }
{
    if k < 2_147_483_648 {
        r - ((2_147_483_648 - k) * p + 999_999) / 1_000_000
    } else {
        r + (k - 2_147_483_648) * p / 1_000_000
    }
}

// The cover of a window, for the reference at r and the period p: time(-b) and time(a), each known to be before r or after it.
fn ends_of(r: u64, p: u64, back: u64, ahead: u64) -> Ends
    requires { Windowed r p back ahead }
    ensures { result ≡ ends_at r p back ahead }
{
    Ends {
        from: r - (back * p + 999_999) / 1_000_000,
        to: r + ahead * p / 1_000_000,
    }
}

// ---- a tick's date

// The elapsed count.
fn count(tick: u32, reference: u32) -> u64
    ensures { result ≡ count_from tick reference }
{
    (u64::from(tick) + 6_442_450_944 - u64::from(reference)) % 4_294_967_296
}

// What is reckoned of a tick, for the reference at r.
fn reckon(c: Correlation, tick: u32, r: u64) -> Reckoned
    requires { Windowed r c.period c.back c.ahead }
    ensures { result ≡ reckoned_at r c.period c.back c.ahead (count_from tick c.tick.0) }
{
    let k = count(tick, c.tick.0);
    let inside = clock::inner::in_window(2_147_483_648, c.back, c.ahead, k);
    let ends = ends_of(r, c.period, c.back, c.ahead);
    let at = time_at(r, c.period, k);
    Reckoned { inside, ends, at }
}

// The date of a tick under a UTC correlation, by the list.
fn date_by_list(c: Correlation, tick: Tick, receipt: Receipt, list: &List) -> Result<Utc, Refusal>
    requires { is_utc c.scale ≡ true }
    ensures { slip_utc result ≡ unmarked_of c tick.0 receipt.day receipt.micro list.now.days list.now.offsets list.now.last }
{
    let list = list.accepted()?;
    let base = base_of(c, &list).ok_or(Refusal::CorrelationNotAccepted)?;
    let k = reckon(c, tick.0, base.at);
    clock::inner::date_by_list(k, base.current, receipt, &list)
}

// The date of a tick before it is marked. A list is used under a UTC correlation alone.
fn unmarked(c: Correlation, tick: Tick, receipt: Receipt, list: &List) -> Result<Record, Refused>
    ensures { slip result ≡ unmarked_of c tick.0 receipt.day receipt.micro list.now.days list.now.offsets list.now.last }
{
    let scale = c.scale;
    if scale == Scale::Utc {
        let t = date_by_list(c, tick, receipt, list).map_err(|f| f.of(scale))?;
        return Ok(t.to_record());
    }
    let r = reference_of(c).ok_or(Refusal::CorrelationNotAccepted.of(scale))?;
    clock::inner::date(scale, reckon(c, tick.0, r), receipt)
}

// The date of a tick, received on a day at a microsecond of the correlation's scale, marked with the reference tick.
pub fn date(c: Correlation, tick: Tick, receipt: Receipt, list: &List) -> Result<Record, Refused>
    ensures { slip result ≡ date_of c tick.0 receipt.day receipt.micro list.now.days list.now.offsets list.now.last }
{
    let r = unmarked(c, tick, receipt, list)?;
    Ok(r.with_mark(Mark::Correlated(u64::from(c.tick.0))))
}

// ---- the tick of a time

// The last count whose time is not later than a place, from 2^31 counts before the reference on. A place is at most 2^31 of the
// longest periods from the reference, 8,389,144,870,912 microseconds.
fn last_at(r: u64, p: u64, w: u64) -> u64
    requires { Near r p w }
    ensures { result ≡ last_at r p w }
{
    let rest = 8_389_144_870_912_000_000 - 2_147_483_648 * p;
    ((w + 8_389_144_870_912 - r) * 1_000_000 + 999_999 - rest) / p
}

// The tick at a count from the reference tick.
fn tick_from(reference: u32, k: u64) -> u32
    requires { k < 4294967296 }
    ensures { result ≡ tick_from reference k }
{
    ((u64::from(reference) + k + 2_147_483_648) % 4_294_967_296) as u32
}

// The last count of a handed time under a UTC correlation, by the list.
fn last_by_list(c: Correlation, h: Handed, list: &List) -> Result<u64, Refusal>
    requires { is_utc c.scale ≡ true }
    ensures { Lasts c h list.now.days list.now.offsets list.now.last result }
{
    let Ok(list) = list.accepted() else {
        return Err(clock::inner::unaccepted(h, Refusal::ListNotAccepted));
    };
    let Some(base) = base_of(c, &list) else {
        return Err(clock::inner::unaccepted(h, Refusal::CorrelationNotAccepted));
    };
    let v = ends_of(base.at, c.period, c.back, c.ahead);
    let w = clock::inner::turn_by_list(base.current, v, h, &list)?;
    Ok(last_at(base.at, c.period, w))
}

// The last count of a handed time. A list is used under a UTC correlation alone.
fn last_of(c: Correlation, h: Handed, list: &List) -> Result<u64, Refusal>
    ensures { Lasts c h list.now.days list.now.offsets list.now.last result }
{
    let scale = c.scale;
    if scale == Scale::Utc {
        return last_by_list(c, h, list);
    }
    let Some(r) = reference_of(c) else {
        return Err(clock::inner::unaccepted(h, Refusal::CorrelationNotAccepted));
    };
    let v = ends_of(r, c.period, c.back, c.ahead);
    let w = clock::inner::turn(scale, v, h)?;
    Ok(last_at(r, c.period, w))
}

// The tick of a handed time: the last of the window whose time is not later.
pub fn tick_of(c: Correlation, h: Handed, list: &List) -> Result<Tick, Refusal>
    ensures { tick_slip result ≡ tick_of c h list.now.days list.now.offsets list.now.last }
{
    let k = last_of(c, h, list)?;
    Ok(Tick(tick_from(c.tick.0, k)))
}
