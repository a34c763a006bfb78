// The chains on places: each counter's crate reckons the places and judges its own correlation. A clock's axis is TAI under a UTC
// correlation, whose list was accepted before, and its own scale under another, which looks at no list.
ghost use Rattle.std.specs.Prelude.{◌≡◌, true, false, ◌+◌, ◌≤◌, ◌<◌, ◌^◌};
ghost use Rattle.scales.specs.Meaning.{slip, slip_utc, number_of, record_at, time_scale, time_count, dated, refused, outcome};
ghost use Rattle.axis.specs.Meaning.{place_of_day, day_at, micros_at};
ghost use Rattle.leap.specs.Meaning.{accepted};
ghost use Rattle.via_tai.specs.Meaning.{is_utc};
ghost use Rattle.clock.specs.Meaning.{is_current};
ghost use Rattle.clock.specs.Places.{cover_of, within_at, window_at};
ghost use Rattle.clock.specs.Stage.{place_in, Spanned, judging, result_at, lacking_at, judging_own, covering, covering_own, unaccepted_by, landed};

use crate::Receipt;
use handed::{Handed, Untaken};
use leap::Accepted;
use scales::{Record, Refusal, Refused, Scale, Tai, Time, Utc};

// Of an accepted UTC correlation: the place of its reference in TAI, in the counter's own parts, and whether its day is not expired.
#[derive(Clone, Copy)]
pub struct Base {
    pub at: u64,
    pub current: bool,
}

// The places of time(-b) and time(a).
#[derive(Clone, Copy)]
pub struct Ends {
    pub from: u64,
    pub to: u64,
}

// Of a count: whether it is in the window, the window's ends, and the place of its time.
#[derive(Clone, Copy)]
pub struct Reckoned {
    pub inside: bool,
    pub ends: Ends,
    pub at: u64,
}

// ---- what both axes share

// The place of a day and a microsecond of a scale, every day having 86,400 s.
pub fn place_in(scale: Scale, day: i64, micro: u64) -> Option<u64>
    ensures { result ≡ place_in scale day micro }
{
    if 86_400_000_000 <= micro {
        return None;
    }
    Record::new(scale, day, micro).to_time().ok()?;
    Some(axis::place_of_day(day) * 86_400_000_000 + micro)
}

// The count is in the window.
pub fn in_window(half: u64, back: u64, ahead: u64, k: u64) -> bool
    requires { (back ≤ half) × (half + ahead < 2 ^ 64) }
    ensures { result ≡ window_at half back ahead k }
{
    half - back <= k && k <= half + ahead
}

// The place w is in the cover.
fn covers(v: Ends, w: u64) -> bool
    ensures { result ≡ within_at v w }
{
    v.from <= w && w <= v.to
}

// The refusal of a handed time where the list or the correlation is not accepted: 4 stands before it.
pub fn unaccepted(h: Handed, f: Refusal) -> Refusal
    ensures { number_of result ≡ unaccepted_by h (number_of f) }
{
    match handed::take(h) {
        Err(Untaken::NotFinite(_)) => Refusal::DecimalNotFinite,
        Err(Untaken::Outside(_)) => f,
        Ok(_) => f,
    }
}

// ---- under a TAI or GPS correlation

// The record of a place, or 11 outside its scale's span.
fn record_at(scale: Scale, place: u64) -> Result<Record, Refused>
    ensures { slip result ≡ result_at scale place }
{
    let day = axis::day_at((place / 86_400_000_000) as u32);
    let r = Record::new(scale, day, place % 86_400_000_000);
    match r.to_time() {
        Ok(_) => Ok(r),
        Err(_) => Err(Refusal::ResultOutside.of(scale)),
    }
}

// The date of a count under an accepted correlation.
pub fn date(scale: Scale, k: Reckoned, receipt: Receipt) -> Result<Record, Refused>
    ensures { slip result ≡ dated scale (outcome (judging_own scale k.inside (cover_of k.ends) (micros_at k.at) receipt.day receipt.micro)) }
{
    let Some(w) = place_in(scale, receipt.day, receipt.micro) else {
        return Err(Refusal::OutsideSpan.of(scale));
    };
    if !k.inside || !covers(k.ends, w) {
        return Err(Refusal::NotInForce.of(scale));
    }
    if w < k.at {
        return Err(Refusal::ResultLater.of(scale));
    }
    record_at(scale, k.at)
}

// The place of a time of its scale's span, in the cover of a correlation of a scale: its count is a place.
fn turn_time(due: Scale, v: Ends, t: Time) -> Result<u64, Refusal>
    requires spanned { Spanned (time_scale t) (time_count t) }
    requires due_is_own { is_utc due ≡ false }
    ensures { landed result ≡ outcome (covering_own due (cover_of v) (Handed.Record (record_at (time_scale t) (time_count t)))) }
{
    if t.scale() != due {
        return Err(Refusal::NoImage);
    }
    let w = t.count();
    if !covers(v, w) {
        return Err(Refusal::NotInForce);
    }
    Ok(w)
}

// The place of a handed time, in the cover of an accepted correlation of a scale.
pub fn turn(due: Scale, v: Ends, h: Handed) -> Result<u64, Refusal>
    requires { is_utc due ≡ false }
    ensures { landed result ≡ outcome (covering_own due (cover_of v) h) }
{
    turn_time(due, v, handed::take(h)?)
}

// ---- under a UTC correlation, by the list

// Is the UTC day at a place not expired?
pub fn is_current(day: u64, last: i64) -> bool
    requires { (0 < place_of_day last) × (place_of_day last < 100000) }
    ensures { result ≡ is_current Scale.Utc last (day_at day) }
{
    day <= axis::place_of_day(last)
}

// The refusal where the receipt has no TAI time: 9 of the result stands before 10 of the receipt.
fn without_receipt(f: Refusal, place: u64, list: &Accepted) -> Refusal
    ensures { number_of result ≡ lacking_at (number_of f) (micros_at place) list.now.days list.now.offsets list.now.last }
{
    if via_tai::inner::is_expired(Tai(place), list) {
        return Refusal::ListExpired;
    }
    f
}

// The date of a count under an accepted correlation; `current` says whether its reference is not expired.
pub fn date_by_list(
    k: Reckoned,
    current: bool,
    receipt: Receipt,
    list: &Accepted,
) -> Result<Utc, Refusal>
    requires { 10000000 ≤ k.at }
    ensures { slip_utc result ≡ dated Scale.Utc (outcome (judging Scale.Utc current k.inside (cover_of k.ends) (micros_at k.at) receipt.day receipt.micro list.now.days list.now.offsets list.now.last)) }
{
    let t = Utc::new(receipt.day, receipt.micro)?;
    if !k.inside {
        return Err(Refusal::NotInForce);
    }
    if !current {
        return Err(Refusal::ListExpired);
    }
    match via_tai::inner::from_utc(t, list) {
        Ok(w) => {
            if !covers(k.ends, w.0) {
                return Err(Refusal::NotInForce);
            }
            if w.0 < k.at {
                return Err(Refusal::ResultLater);
            }
            // The list is accepted and the receipt is not expired, so that what is not later is not.
            // What it ensures is wanted: that the list is accepted.
            let _ = list.list();
            via_tai::inner::unexpired_to_utc(Tai(k.at), list)
        }
        Err(f) => Err(without_receipt(f, k.at, list)),
    }
}

// The TAI place of a UTC time of its span, in the cover of a correlation.
fn turn_utc(v: Ends, t: Utc, list: &Accepted) -> Result<u64, Refusal>
    requires { Spanned Scale.Utc t.0 }
    ensures { landed result ≡ outcome (covering Scale.Utc true (cover_of v) (Handed.Record (record_at Scale.Utc t.0)) list.now.days list.now.offsets list.now.last) }
{
    let w = via_tai::inner::from_utc(t, list)?;
    if !covers(v, w.0) {
        return Err(Refusal::NotInForce);
    }
    Ok(w.0)
}

// The TAI place of a time of its scale's span, in the cover of a correlation whose reference is not expired.
fn turn_to_tai(v: Ends, t: Time, list: &Accepted) -> Result<u64, Refusal>
    requires { Spanned (time_scale t) (time_count t) }
    ensures { landed result ≡ outcome (covering Scale.Utc true (cover_of v) (Handed.Record (record_at (time_scale t) (time_count t))) list.now.days list.now.offsets list.now.last) }
{
    match t {
        Time::Utc(n) => turn_utc(v, n, list),
        Time::Tai(_) | Time::Gps(_) => Err(Refusal::NoImage),
    }
}

// The TAI place of a handed time, in the cover of an accepted correlation; `current` says whether its reference is not expired.
pub fn turn_by_list(current: bool, v: Ends, h: Handed, list: &Accepted) -> Result<u64, Refusal>
    ensures { landed result ≡ outcome (covering Scale.Utc current (cover_of v) h list.now.days list.now.offsets list.now.last) }
{
    let t = handed::take(h)?;
    if !current {
        return Err(Refusal::ListExpired);
    }
    turn_to_tai(v, t, list)
}
