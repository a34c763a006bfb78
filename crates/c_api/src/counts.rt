// GOCE's counts and times, for C.
ghost use Rattle.std.specs.Prelude.{◌≡◌};
ghost use Rattle.c_api.specs.Counts.{goce_of, goce_date, goce_count};

use crate::{VrkCount, VrkHanded, VrkTime};
use clock::Receipt;
use goce::Correlation;
use handed::Handed;
use leap::List;
use scales::Refusal;

#[repr(C)]
#[derive(Clone, Copy)]
pub struct VrkGoceCorrelation {
    pub obt0: u64,
    pub utc0: u64,
    pub offset: i64,
    pub gradient: u64,
    pub back: u64,
    pub ahead: u64,
}

impl From<VrkGoceCorrelation> for Correlation {
    ghost from_gives = { λ c r. r ≡ goce_of c };

    fn from(c: VrkGoceCorrelation) -> Correlation {
        Correlation {
            obt0: c.obt0,
            utc0: c.utc0,
            offset: c.offset,
            gradient: c.gradient,
            back: c.back,
            ahead: c.ahead,
        }
    }
}

#[tactic(auto, unfolding(crate::specs::Counts::goce_date))]
pub fn vrk_goce_date(
    obt: u64,
    correlation: VrkGoceCorrelation,
    receipt_day: i64,
    receipt_micro: u64,
    days: &[i64],
    offsets: &[u64],
    last: i64,
) -> VrkTime
    ensures { result ≡ goce_date obt correlation receipt_day receipt_micro days.now offsets.now last }
{
    let receipt = Receipt {
        day: receipt_day,
        micro: receipt_micro,
    };
    let list = List::new(days, offsets, last);
    goce::date(correlation.into(), obt, receipt, &list).into()
}

#[tactic(auto, using(crate::proofs::Ways::count_unknown))]
pub fn vrk_goce_count(
    time: VrkHanded,
    correlation: VrkGoceCorrelation,
    days: &[i64],
    offsets: &[u64],
    last: i64,
) -> VrkCount
    ensures { result ≡ goce_count time correlation days.now offsets.now last }
{
    let list = List::new(days, offsets, last);
    match Handed::try_from(time) {
        Ok(h) => goce::count_of(correlation.into(), h, &list).into(),
        Err(f) => VrkCount::from(Err::<u64, Refusal>(f)),
    }
}
