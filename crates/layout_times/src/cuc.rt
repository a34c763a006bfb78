// CUC, Aeolus: GPS seconds since 6 January 1980, and a fraction of a second.
ghost use Rattle.std.specs.Prelude.{◌≡◌, ◌<◌};
ghost use Rattle.scales.specs.Meaning.{slip, wrote};
ghost use Rattle.layout_times.specs.Cuc.{fields_at, read, write};

use handed::Handed;
use layout_fields::cuc::Fields;
use scales::{Record, Refusal, Refused, Scale};

pub fn read(b: &[u8]) -> Result<Record, Refused>
    ensures { slip result ≡ read b.now }
{
    let f = layout_fields::cuc::read(b).map_err(|r| r.of(Scale::Gps))?;
    let n = u64::from(f.seconds) * 1_000_000 + crate::fraction_micros(f.fraction);
    // day -7300
    crate::since(Scale::Gps, 32700, n)
}

// The last fields that are not later than n microseconds since 6 January 1980.
fn fields_at(n: u64) -> Fields
    requires { n < 4294967296000000 }
    ensures { result ≡ fields_at n }
{
    Fields {
        seconds: (n / 1_000_000) as u32,
        fraction: crate::fraction_at(n % 1_000_000),
    }
}

pub fn write(h: Handed, out: &mut [u8]) -> Result<usize, Refusal>
    ensures { wrote result out.new ≡ write h out.old }
{
    // 32,700 days: from day -40000 to day -7300
    let n = crate::due(h, Scale::Gps)? - 2_825_280_000_000_000;
    layout_fields::cuc::write(fields_at(n), out)
}
