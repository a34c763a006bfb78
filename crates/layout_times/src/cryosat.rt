// CryoSat general: TAI days, milliseconds and microseconds from 1 January 2000.
ghost use Rattle.std.specs.Prelude.{◌≡◌, ◌<◌};
ghost use Rattle.scales.specs.Meaning.{outcome, slip, wrote, valued, count_slip};
ghost use Rattle.layout_times.specs.Due.{since2000};
ghost use Rattle.layout_times.specs.Cryosat.{fields_at, read, write};

use handed::Handed;
use layout_fields::cryosat::Fields;
use scales::{Record, Refusal, Refused, Scale};

pub fn read(b: &[u8]) -> Result<Record, Refused>
    ensures { slip result ≡ read b.now }
{
    let f = layout_fields::cryosat::read(b).map_err(|r| r.of(Scale::Tai))?;
    let n = crate::inner::micros(f.day, f.millisecond, f.microsecond);
    // day 0
    crate::since(Scale::Tai, 40000, n)
}

// The microseconds since day 0 of a handed TAI time, or 4, 7, 12.
pub(crate) fn since_2000(h: Handed) -> Result<u64, Refusal>
    ensures { count_slip result ≡ valued 0 (outcome (since2000 h)) }
{
    // 40,000 days: from day -40000 to day 0
    crate::due(h, Scale::Tai)?
        .checked_sub(3_456_000_000_000_000)
        .ok_or(Refusal::NoImage)
}

// The fields of n microseconds since day 0.
pub(crate) fn fields_at(n: u64) -> Fields
    requires { n < 5662310400000000 }
    ensures { result ≡ fields_at n }
{
    Fields {
        day: (n / 86_400_000_000) as u16,
        millisecond: (n % 86_400_000_000 / 1000) as u32,
        microsecond: (n % 1000) as u16,
    }
}

pub fn write(h: Handed, out: &mut [u8]) -> Result<usize, Refusal>
    ensures { wrote result out.new ≡ write h out.old }
{
    layout_fields::cryosat::write(fields_at(since_2000(h)?), out)
}
