// SIRAL: CryoSat's time, and an extra counter of 33/16 microsecond. A carry may pass midnight.
ghost use Rattle.std.specs.Prelude.{◌≡◌, ◌<◌};
ghost use Rattle.scales.specs.Meaning.{slip, wrote};
ghost use Rattle.layout_times.specs.Siral.{fields_at, read, write};

use handed::Handed;
use layout_fields::siral::Fields;
use scales::{Record, Refusal, Refused, Scale};

pub fn read(b: &[u8]) -> Result<Record, Refused>
    ensures { slip result ≡ read b.now }
{
    let f = layout_fields::siral::read(b).map_err(|r| r.of(Scale::Tai))?;
    let n = crate::inner::micros(f.day, f.millisecond, f.microsecond);
    // day 0
    crate::since(Scale::Tai, 40000, n + u64::from(f.extra) * 33 / 16)
}

// The fields of n microseconds since day 0: CryoSat's, and no extra units.
fn fields_at(n: u64) -> Fields
    requires { n < 5662310400000000 }
    ensures { result ≡ fields_at n }
{
    let f = crate::cryosat::fields_at(n);
    Fields {
        day: f.day,
        millisecond: f.millisecond,
        microsecond: f.microsecond,
        extra: 0,
    }
}

pub fn write(h: Handed, out: &mut [u8]) -> Result<usize, Refusal>
    ensures { wrote result out.new ≡ write h out.old }
{
    layout_fields::siral::write(fields_at(crate::cryosat::since_2000(h)?), out)
}
