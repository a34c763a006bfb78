// The C interface: each function a thin cover of a library function, with the same full contract. `include/vrikshonem.h`
// says it for C, and `c_api_c` exports each.
#![tactic(auto)]

ghost use Rattle.std.specs.Prelude.{◌≡◌};
ghost use Rattle.scales.specs.Meaning.{slip, count_slip, tick_slip};
ghost use Rattle.decimal.specs.Meaning.{decimal_slip};
ghost use Rattle.c_api.specs.Meaning.{named_by, record_given, given_of, time_out, decimal_out, count_out, correlation_of, decimal_read, DecimalWrote, sbt_date, sbt_tick, list_accepted, changed};

use clock::Receipt;
use handed::Handed;
use leap::List;
use sbt::Correlation;
use scales::{Record, Refusal, Refused, Scale, Tick};

pub mod bytes;
pub mod counts;
mod marks;
pub mod parts;
pub mod run;
pub mod seasons;
pub mod texts;

use marks::{mark_code, mark_named, mark_source};

#[repr(C)]
#[derive(Clone, Copy)]
pub struct VrkHanded {
    pub kind: u32,
    pub scale: u32,
    pub day: i64,
    pub micro: u64,
    pub decimal: f64,
    pub mark: u32,
    pub source: u64,
}

#[repr(C)]
#[derive(Clone, Copy)]
pub struct VrkTime {
    pub refusal: u32,
    pub scale: u32,
    pub day: i64,
    pub micro: u64,
    pub mark: u32,
    pub source: u64,
}

#[repr(C)]
#[derive(Clone, Copy)]
pub struct VrkDecimal {
    pub refusal: u32,
    pub day: f64,
}

#[repr(C)]
#[derive(Clone, Copy)]
pub struct VrkSbtCorrelation {
    pub tick: u32,
    pub scale: u32,
    pub day: i64,
    pub micro: u64,
    pub period: u64,
    pub back: u64,
    pub ahead: u64,
}

#[repr(C)]
#[derive(Clone, Copy)]
pub struct VrkCount {
    pub refusal: u32,
    pub count: u64,
}

// The scale of a code.
#[tactic(auto, unfolding(crate::specs::Meaning::named_by))]
fn scale_named(code: u32) -> Option<Scale>
    ensures { result ≡ named_by code }
{
    match code {
        0 => Some(Scale::Tai),
        1 => Some(Scale::Utc),
        2 => Some(Scale::Gps),
        _ => None,
    }
}

// A record that a caller in C hands in: of a known scale, its mark by code and source.
#[tactic(auto, using(crate::proofs::Ways::record_known, crate::proofs::Ways::record_unknown))]
fn hand_record(scale: Scale, day: i64, micro: u64, code: u32, source: u64) -> Option<Handed>
    ensures { result ≡ record_given scale day micro code source }
{
    let mark = mark_named(code, source)?;
    Some(Handed::Record(Record::new(scale, day, micro).with_mark(mark)))
}

// What a caller in C hands in; a number that stands for nothing is refused 3.
impl TryFrom<VrkHanded> for Handed {
    type Error = Refusal;

    ghost try_from_gives = { λ h r. r ≡ given_of h };

    #[tactic(auto, using(crate::proofs::Ways::unnamed, crate::proofs::Ways::unkind, crate::proofs::Ways::given_decimal, crate::proofs::Ways::given_record))]
    fn try_from(h: VrkHanded) -> Result<Handed, Refusal> {
        let scale = scale_named(h.scale).ok_or(Refusal::FieldOver)?;
        match h.kind {
            0 => hand_record(scale, h.day, h.micro, h.mark, h.source).ok_or(Refusal::FieldOver),
            1 => Ok(Handed::Decimal(h.decimal, scale)),
            _ => Err(Refusal::FieldOver),
        }
    }
}

// ---- what is handed out: the number and the value, or the number of a refusal and what is empty

impl From<Result<Record, Refused>> for VrkTime {
    ghost from_gives = { λ d r. r ≡ time_out (slip d) };

    fn from(d: Result<Record, Refused>) -> VrkTime {
        match d {
            Ok(r) => {
                let mark = r.mark;
                VrkTime {
                    refusal: 0,
                    scale: r.scale.code(),
                    day: r.day,
                    micro: r.micro,
                    mark: mark_code(mark),
                    source: mark_source(mark),
                }
            }
            Err(e) => VrkTime {
                refusal: e.refusal.number(),
                scale: e.scale.code(),
                day: 0,
                micro: 0,
                mark: 0,
                source: 0,
            },
        }
    }
}

impl From<Result<f64, Refusal>> for VrkDecimal {
    ghost from_gives = { λ d r. r ≡ decimal_out (decimal_slip d) };

    fn from(d: Result<f64, Refusal>) -> VrkDecimal {
        match d {
            Ok(day) => VrkDecimal { refusal: 0, day },
            Err(f) => VrkDecimal {
                refusal: f.number(),
                day: 0.0,
            },
        }
    }
}

impl From<Result<u64, Refusal>> for VrkCount {
    ghost from_gives = { λ c r. r ≡ count_out (count_slip c) };

    fn from(c: Result<u64, Refusal>) -> VrkCount {
        match c {
            Ok(count) => VrkCount { refusal: 0, count },
            Err(f) => VrkCount {
                refusal: f.number(),
                count: 0,
            },
        }
    }
}

impl From<Result<Tick, Refusal>> for VrkCount {
    ghost from_gives = { λ t r. r ≡ count_out (tick_slip t) };

    fn from(t: Result<Tick, Refusal>) -> VrkCount {
        t.map(|tick| u64::from(tick.0)).into()
    }
}

// ---- the functions

#[tactic(auto, using(crate::proofs::Ways::read_known, crate::proofs::Ways::read_unknown))]
pub fn vrk_decimal_read(day: f64, scale: u32) -> VrkTime
    ensures { result ≡ decimal_read day scale }
{
    let Some(scale) = scale_named(scale) else {
        return VrkTime::from(Err(Refusal::FieldOver.of(Scale::Tai)));
    };
    decimal::read(day, scale).into()
}

#[tactic(auto, using(crate::proofs::Ways::write_known, crate::proofs::Ways::write_unknown))]
pub fn vrk_decimal_write(time: VrkHanded) -> VrkDecimal
    ensures { DecimalWrote time result }
{
    match Handed::try_from(time) {
        Ok(h) => decimal::write(h).into(),
        Err(f) => VrkDecimal::from(Err(f)),
    }
}

// A correlation of an unknown scale is one that is not accepted: its period is 0.
impl From<VrkSbtCorrelation> for Correlation {
    ghost from_gives = { λ c r. r ≡ correlation_of c };

    fn from(c: VrkSbtCorrelation) -> Correlation {
        let (scale, period) = match scale_named(c.scale) {
            Some(scale) => (scale, c.period),
            None => (Scale::Tai, 0),
        };
        Correlation {
            tick: Tick(c.tick),
            scale,
            day: c.day,
            micro: c.micro,
            period,
            back: c.back,
            ahead: c.ahead,
        }
    }
}

#[tactic(auto, unfolding(crate::specs::Meaning::sbt_date))]
pub fn vrk_sbt_date(
    tick: u32,
    correlation: VrkSbtCorrelation,
    receipt_day: i64,
    receipt_micro: u64,
    days: &[i64],
    offsets: &[u64],
    last: i64,
) -> VrkTime
    ensures { result ≡ sbt_date tick correlation receipt_day receipt_micro days.now offsets.now last }
{
    let receipt = Receipt {
        day: receipt_day,
        micro: receipt_micro,
    };
    let list = List::new(days, offsets, last);
    sbt::date(correlation.into(), Tick(tick), receipt, &list).into()
}

#[tactic(auto, using(crate::proofs::Ways::tick_unknown))]
pub fn vrk_sbt_tick(
    time: VrkHanded,
    correlation: VrkSbtCorrelation,
    days: &[i64],
    offsets: &[u64],
    last: i64,
) -> VrkCount
    ensures { result ≡ sbt_tick time correlation days.now offsets.now last }
{
    let list = List::new(days, offsets, last);
    match Handed::try_from(time) {
        Ok(h) => sbt::tick_of(correlation.into(), h, &list).into(),
        Err(f) => VrkCount::from(Err::<u64, Refusal>(f)),
    }
}

pub fn vrk_list_accepted(days: &[i64], offsets: &[u64], last: i64) -> u32
    ensures { result ≡ list_accepted days.now offsets.now last }
{
    u32::from(List::new(days, offsets, last).is_accepted())
}

#[tactic(auto, using(crate::proofs::Ways::change_unknown, crate::proofs::Ways::change_unnamed))]
pub fn vrk_change(
    time: VrkHanded,
    to_scale: u32,
    days: &[i64],
    offsets: &[u64],
    last: i64,
) -> VrkTime
    ensures { result ≡ changed time to_scale days.now offsets.now last }
{
    let Some(to) = scale_named(to_scale) else {
        return VrkTime::from(Err(Refusal::FieldOver.of(Scale::Tai)));
    };
    match Handed::try_from(time) {
        Ok(h) => changes::change(h, to, &List::new(days, offsets, last)).into(),
        Err(f) => VrkTime::from(Err(f.of(to))),
    }
}
