// The cores: a list that is used was accepted before, and is not tested here, but where `lacks_list` tests it.
ghost use Rattle.std.specs.Prelude.{◌≡◌, true};
ghost use Rattle.axis.specs.Meaning.{micros_at};
ghost use Rattle.scales.specs.Meaning.{outcome, dated, slip, time_scale, time_count};
ghost use Rattle.leap.specs.Meaning.{accepted};
ghost use Rattle.via_tai.specs.Meaning.{of_count, to_scale, is_utc};
ghost use Rattle.via_tai.specs.Ways.{OnTheWay};
ghost use Rattle.changes.specs.Meaning.{change_uses_list, moving};
ghost use Rattle.changes.specs.Asked.{lacks_list, record_asked};

use leap::List;
use scales::{Record, Refusal, Refused, Scale, Tai, Time};

// ---- a time and a scale that are known only when the program runs

fn to_scale(c: Tai, to: Scale, list: &List) -> Result<Record, Refused>
    requires on_the_way { OnTheWay c.0 }
    requires list_there { is_utc to ≡ true → accepted list.now.days list.now.offsets list.now.last ≡ true }
    ensures { slip result ≡ dated to (outcome (to_scale to list.now.days list.now.offsets list.now.last (micros_at c.0))) }
{
    let time = match to {
        Scale::Tai => via_tai::inner::to_tai(c).map(Time::Tai),
        Scale::Utc => via_tai::inner::to_utc(c, &leap::inner::known(list)).map(Time::Utc),
        Scale::Gps => via_tai::inner::to_gps(c).map(Time::Gps),
    };
    Ok(time.map_err(|f| f.of(to))?.to_record())
}

// A time to any scale; a list that is used was accepted before.
pub fn change(t: Time, to: Scale, list: &List) -> Result<Record, Refused>
    requires { change_uses_list (time_scale t) to ≡ true → accepted list.now.days list.now.offsets list.now.last ≡ true }
    ensures { slip result ≡ dated to (outcome (of_count (time_scale t) (time_count t) (moving (time_scale t) to list.now.days list.now.offsets list.now.last))) }
{
    let c = via_tai::inner::from_time(t, list).map_err(|f| f.of(to))?;
    if t.scale() == to {
        return Ok(t.to_record());
    }
    to_scale(c, to, list)
}

// ---- what a list is asked for

pub fn is_utc(scale: Scale) -> bool
    ensures { result ≡ is_utc scale }
{
    scale == Scale::Utc
}

// Does a change between two scales use a leap list?
pub fn change_uses_list(from: Scale, to: Scale) -> bool
    ensures { result ≡ change_uses_list from to }
{
    is_utc(from) || is_utc(to)
}

// Is a list used that is not accepted?
pub fn lacks_list(used: bool, list: &List) -> bool
    ensures { result ≡ lacks_list used list.now.days list.now.offsets list.now.last }
{
    used && !list.is_accepted()
}

// A record in its own scale, plain, after the refusals that this scale brings; a list that is used was accepted before.
pub fn judge(r: Record, list: &List) -> Result<Record, Refused>
    requires { is_utc r.scale ≡ true → accepted list.now.days list.now.offsets list.now.last ≡ true }
    ensures { slip result ≡ dated r.scale (outcome (record_asked r list.now.days list.now.offsets list.now.last)) }
{
    let scale = r.scale;
    r.to_time()?;
    let t = Record::new(scale, r.day, r.micro);
    if !is_utc(scale) {
        return Ok(t);
    }
    let day = axis::place_of_day(r.day);
    if axis::place_of_day(list.last()) < day {
        return Err(Refusal::ListExpired.of(scale));
    }
    if !via_tai::inner::has_micro(list, day, r.micro) {
        return Err(Refusal::SecondLacking.of(scale));
    }
    Ok(t)
}
