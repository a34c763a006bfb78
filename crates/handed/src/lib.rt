// A time that a caller hands in, a record or a decimal day: the one place where it is taken apart.
#![tactic(auto)]

ghost use Rattle.std.specs.Prelude.{◌≡◌, ◌+◌, ◌*◌, ◌/◌, ◌^◌, ◌<◌, ◌≤◌, ltb};
ghost use Rattle.std.specs.Float.{binary64};
ghost use Rattle.std.specs.Float.Ieee.{of_bits};
ghost use Rattle.axis.specs.Meaning.{place_of_day};
ghost use Rattle.handed.specs.Meaning.{Took, mark_of, refused_by, refusal_by};
ghost use Rattle.handed.specs.Parts.{back_to, first_of, value_of, found, time_of};

use scales::{Gps, Mark, Record, Refusal, Refused, Scale, Tai, Time, Utc};

pub mod inner;

// What a caller hands in: a record, or a decimal day with its scale.
#[derive(Clone, Copy)]
pub enum Handed {
    Record(Record),
    Decimal(f64, Scale),
}

impl Handed {
    // The mark of a record; a decimal day is plain.
    pub fn mark(self) -> Mark
        ensures { result ≡ mark_of self }
    {
        match self {
            Handed::Record(r) => r.mark,
            Handed::Decimal(_, _) => Mark::Plain,
        }
    }
}

// Why a handed time is not taken, and the scale of its empty record. One that is not finite is told apart from one outside its
// span, for other refusals stand between the two.
#[derive(Clone, Copy)]
pub enum Untaken {
    NotFinite(Scale),
    Outside(Scale),
}

// Where no other refusal stands between: 4, or 7.
impl From<Untaken> for Refused {
    ghost from_gives = { λ e f. f ≡ refused_by e };

    fn from(e: Untaken) -> Refused {
        match e {
            Untaken::NotFinite(scale) => Refusal::DecimalNotFinite.of(scale),
            Untaken::Outside(scale) => Refusal::OutsideSpan.of(scale),
        }
    }
}

impl From<Untaken> for Refusal {
    ghost from_gives = { λ e f. f ≡ refusal_by e };

    fn from(e: Untaken) -> Refusal {
        match e {
            Untaken::NotFinite(_) => Refusal::DecimalNotFinite,
            Untaken::Outside(_) => Refusal::OutsideSpan,
        }
    }
}

// Why an f64 has no place on the axis.
#[derive(Clone, Copy)]
enum Unread {
    NotFinite,
    Outside,
}

// ---- a decimal day, from its bits

// floor((q * 10546875 + extra) / 2^(23 + v)), halved with a half going up; a day has 10546875 * 2^13 microseconds.
fn scaled(q: u64, extra: u64, v: u64) -> u64
    requires { (q < 2 ^ 53) × (extra < 10546875) × (v < 64) }
    ensures { (result ≡ ((q * 10546875 + extra) / 2 ^ (23 + v) + 1) / 2) × (result < 2 ^ 62) }
{
    let low = q % 8388608 * 10546875 + extra;
    let high = q / 8388608 * 10546875 + low / 8388608;
    ((high >> v) + 1) / 2
}

// Whether q / 2^sh is below limit.
fn below(q: u64, sh: u64, limit: u64) -> bool
    requires { (q < 2 ^ 53) × (0 < limit) }
    ensures { result ≡ ltb q (limit * 2 ^ sh) }
{
    52 < sh || (q >> sh) < limit
}

// q / 2^sh days after day 0, or before it. A half goes to the later: before day 0 that is towards day 0,
// so a little less than q is taken.
fn read_number(first: u64, neg: bool, q: u64, sh: u64) -> Result<u64, Unread>
    requires { (0 < first) × (first ≤ 36525) × (0 < q) × (q < 2 ^ 53) × (37 ≤ sh) × (sh ≤ 90) }
    ensures { result ≡ value_of first neg q (2 ^ sh) }
{
    if neg {
        if below(q - 1, sh, first) {
            return Ok(3_456_000_000_000_000 - scaled(q - 1, 10_546_874, sh - 37));
        }
        return Err(Unread::Outside);
    }
    if below(q, sh, 36525) {
        return Ok(3_456_000_000_000_000 + scaled(q, 0, sh - 37));
    }
    Err(Unread::Outside)
}

// What a bit pattern stands for, in microseconds from day -40000 on, every day having 86,400 s. The exponent's field tells the
// ranges apart: infinite, 2^16 days or more, less than half a microsecond, and the rest.
fn read_bits(first: u64, bits: u64) -> Result<u64, Unread>
    requires { (0 < first) × (first ≤ 36525) }
    ensures { result ≡ found first (of_bits binary64 bits) }
{
    let parts = double::inner::split(bits);
    let neg = parts.minus;
    let field = parts.exponent;
    let digits = parts.digits;
    if field == 2047 {
        return Err(Unread::NotFinite);
    }
    if 1038 < field {
        return Err(Unread::Outside);
    }
    if field < 985 {
        return Ok(3_456_000_000_000_000);
    }
    read_number(first, neg, 0x10_0000_0000_0000 + digits, 1075 - field)
}

fn read_days(first: u64, day: f64) -> Result<u64, Unread>
    requires { (0 < first) × (first ≤ 36525) }
    ensures { result ≡ found first day }
{
    if day.is_nan() {
        return Err(Unread::NotFinite);
    }
    read_bits(first, day.to_bits())
}

// ---- taking a handed time apart

// The days from a day on or before day 0 to day 0.
fn back_to(day: i64) -> u64
    requires { place_of_day day ≤ 40000 }
    ensures { result ≡ back_to day }
{
    40000 - axis::place_of_day(day)
}

fn first_of(scale: Scale) -> u64
    ensures { result ≡ first_of scale }
{
    match scale {
        Scale::Tai => back_to(Tai::FIRST_DAY),
        Scale::Utc => back_to(Utc::FIRST_DAY),
        Scale::Gps => back_to(Gps::FIRST_DAY),
    }
}

// The time of a scale at place n of the axis of microseconds.
fn time_of(scale: Scale, n: u64) -> Time
    requires { n < 2 ^ 62 }
    ensures { result ≡ time_of scale n }
{
    match scale {
        Scale::Tai => Time::Tai(Tai(n)),
        Scale::Utc => Time::Utc(Utc(n / 86_400_000_000 * Utc::BOUND + n % 86_400_000_000)),
        Scale::Gps => Time::Gps(Gps(n)),
    }
}

fn take_record(r: Record) -> Result<Time, Untaken>
    ensures { Took (Handed.Record r) result }
{
    r.to_time().map_err(|e| Untaken::Outside(e.scale))
}

// A handed time, taken apart.
pub fn take(h: Handed) -> Result<Time, Untaken>
    ensures { Took h result }
{
    match h {
        Handed::Record(r) => take_record(r),
        Handed::Decimal(day, scale) => inner::take_decimal(day, scale),
    }
}
