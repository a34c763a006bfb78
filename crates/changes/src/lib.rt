// The changes between TAI, UTC and GPS. Each entry that uses a leap list tests it once and hands it to the cores.
#![tactic(auto)]

ghost use Rattle.std.specs.Prelude.{◌≡◌};
ghost use Rattle.scales.specs.Meaning.{slip, slip_tai, slip_utc, slip_gps};
ghost use Rattle.changes.specs.Meaning.{tai_to_gps, gps_to_tai, utc_to_tai, utc_to_gps, tai_to_utc, gps_to_utc, change_of};

use handed::{Handed, Untaken};
use leap::List;
use scales::{Gps, Record, Refusal, Refused, Scale, Tai, Utc};

pub mod inner;

pub fn tai_to_gps(t: Tai) -> Result<Gps, Refusal>
    ensures { slip_gps result ≡ tai_to_gps t.0 }
{
    via_tai::inner::to_gps(via_tai::inner::from_tai(t)?)
}

pub fn gps_to_tai(t: Gps) -> Result<Tai, Refusal>
    ensures { slip_tai result ≡ gps_to_tai t.0 }
{
    via_tai::inner::to_tai(via_tai::inner::from_gps(t)?)
}

pub fn utc_to_tai(t: Utc, list: &List) -> Result<Tai, Refusal>
    ensures { slip_tai result ≡ utc_to_tai t.0 list.now.days list.now.offsets list.now.last }
{
    let list = list.accepted()?;
    via_tai::inner::to_tai(via_tai::inner::from_utc(t, &list)?)
}

pub fn utc_to_gps(t: Utc, list: &List) -> Result<Gps, Refusal>
    ensures { slip_gps result ≡ utc_to_gps t.0 list.now.days list.now.offsets list.now.last }
{
    let list = list.accepted()?;
    via_tai::inner::to_gps(via_tai::inner::from_utc(t, &list)?)
}

pub fn tai_to_utc(t: Tai, list: &List) -> Result<Utc, Refusal>
    ensures { slip_utc result ≡ tai_to_utc t.0 list.now.days list.now.offsets list.now.last }
{
    let list = list.accepted()?;
    via_tai::inner::to_utc(via_tai::inner::from_tai(t)?, &list)
}

pub fn gps_to_utc(t: Gps, list: &List) -> Result<Utc, Refusal>
    ensures { slip_utc result ≡ gps_to_utc t.0 list.now.days list.now.offsets list.now.last }
{
    let list = list.accepted()?;
    via_tai::inner::to_utc(via_tai::inner::from_gps(t)?, &list)
}

// Any time that is handed in, to any scale.
pub fn change(h: Handed, to: Scale, list: &List) -> Result<Record, Refused>
    ensures { slip result ≡ change_of h to list.now.days list.now.offsets list.now.last }
{
    match handed::take(h) {
        Err(Untaken::NotFinite(_)) => Err(Refusal::DecimalNotFinite.of(to)),
        Err(Untaken::Outside(s)) => {
            if inner::lacks_list(inner::change_uses_list(s, to), list) {
                return Err(Refusal::ListNotAccepted.of(to));
            }
            Err(Refusal::OutsideSpan.of(to))
        }
        Ok(t) => {
            if inner::lacks_list(inner::change_uses_list(t.scale(), to), list) {
                return Err(Refusal::ListNotAccepted.of(to));
            }
            Ok(inner::change(t, to, list)?.with_mark(h.mark()))
        }
    }
}
