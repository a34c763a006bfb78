// GOCE's counts and times, for C.
ghost use Rattle.std.specs.Prelude.{◌≡◌};
ghost use Rattle.c_api.specs.Counts.{goce_date, goce_count};

use c_api::counts::VrkGoceCorrelation;
use c_api::{VrkCount, VrkHanded, VrkTime};

#[unsafe(no_mangle)]
pub extern "C" fn vrk_goce_date(
    obt: u64,
    correlation: VrkGoceCorrelation,
    receipt_day: i64,
    receipt_micro: u64,
    days: &[i64],
    offsets: &[u64],
    last: i64,
) -> VrkTime
    ensures { result ≡ goce_date obt correlation receipt_day receipt_micro days.now offsets.now last }
{
    c_api::counts::vrk_goce_date(
        obt,
        correlation,
        receipt_day,
        receipt_micro,
        days,
        offsets,
        last,
    )
}

#[unsafe(no_mangle)]
pub extern "C" fn vrk_goce_count(
    time: VrkHanded,
    correlation: VrkGoceCorrelation,
    days: &[i64],
    offsets: &[u64],
    last: i64,
) -> VrkCount
    ensures { result ≡ goce_count time correlation days.now offsets.now last }
{
    c_api::counts::vrk_goce_count(time, correlation, days, offsets, last)
}
