// What C calls: each function of `c_api` under its own name, as a static library exports it, with the same contract. A static
// library is no library for other crates, so that the code, and what is proved of it, stand in `c_api`.
// `include/vrikshonem.h` says it for C.
#![tactic(auto)]

ghost use Rattle.std.specs.Prelude.{◌≡◌};
ghost use Rattle.c_api.specs.Meaning.{decimal_read, DecimalWrote, sbt_date, sbt_tick, list_accepted, changed};

use c_api::{VrkCount, VrkDecimal, VrkHanded, VrkSbtCorrelation, VrkTime};

pub mod bytes;
pub mod counts;
pub mod parts;
pub mod run;
pub mod seasons;
pub mod texts;

#[unsafe(no_mangle)]
pub extern "C" fn vrk_decimal_read(day: f64, scale: u32) -> VrkTime
    ensures { result ≡ decimal_read day scale }
{
    c_api::vrk_decimal_read(day, scale)
}

#[unsafe(no_mangle)]
pub extern "C" fn vrk_decimal_write(time: VrkHanded) -> VrkDecimal
    ensures { DecimalWrote time result }
{
    c_api::vrk_decimal_write(time)
}

#[unsafe(no_mangle)]
pub extern "C" fn vrk_sbt_date(
    tick: u32,
    correlation: VrkSbtCorrelation,
    receipt_day: i64,
    receipt_micro: u64,
    days: &[i64],
    offsets: &[u64],
    last: i64,
) -> VrkTime
    ensures { result ≡ sbt_date tick correlation receipt_day receipt_micro days.now offsets.now last }
{
    c_api::vrk_sbt_date(
        tick,
        correlation,
        receipt_day,
        receipt_micro,
        days,
        offsets,
        last,
    )
}

#[unsafe(no_mangle)]
pub extern "C" fn vrk_sbt_tick(
    time: VrkHanded,
    correlation: VrkSbtCorrelation,
    days: &[i64],
    offsets: &[u64],
    last: i64,
) -> VrkCount
    ensures { result ≡ sbt_tick time correlation days.now offsets.now last }
{
    c_api::vrk_sbt_tick(time, correlation, days, offsets, last)
}

#[unsafe(no_mangle)]
pub extern "C" fn vrk_list_accepted(days: &[i64], offsets: &[u64], last: i64) -> u32
    ensures { result ≡ list_accepted days.now offsets.now last }
{
    c_api::vrk_list_accepted(days, offsets, last)
}

#[unsafe(no_mangle)]
pub extern "C" fn vrk_change(
    time: VrkHanded,
    to_scale: u32,
    days: &[i64],
    offsets: &[u64],
    last: i64,
) -> VrkTime
    ensures { result ≡ changed time to_scale days.now offsets.now last }
{
    c_api::vrk_change(time, to_scale, days, offsets, last)
}
