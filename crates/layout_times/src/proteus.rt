// Proteus, SMOS: UTC in weeks of 604,800 s from day -7300, with the bit H3. Neither way uses a leap list.
ghost use Rattle.std.specs.Prelude.{◌≡◌, ◌<◌};
ghost use Rattle.scales.specs.Meaning.{outcome, slip, wrote, valued, count_slip};
ghost use Rattle.layout_times.specs.Due.{since1980};
ghost use Rattle.layout_times.specs.Proteus.{h3_of, fields_at, read, write};

use handed::Handed;
use layout_fields::proteus::Fields;
use scales::{Mark, Record, Refusal, Refused, Scale, Utc};

pub fn read(b: &[u8]) -> Result<Record, Refused>
    ensures { slip result ≡ read b.now }
{
    let f = layout_fields::proteus::read(b).map_err(|r| r.of(Scale::Utc))?;
    let seconds = u64::from(f.week) * 604_800 + u64::from(f.second);
    let n = seconds * 1_000_000 + crate::fraction_micros(f.fraction);
    // day -7300
    Ok(crate::since(Scale::Utc, 32700, n)?.with_mark(Mark::Proteus(f.h3)))
}

// The microseconds since day -7300 of a handed UTC time that has an image, days of 86,400 s; or 4, 7, 12.
fn since_1980(h: Handed) -> Result<u64, Refusal>
    ensures { count_slip result ≡ valued 0 (outcome (since1980 h)) }
{
    let n = crate::due(h, Scale::Utc)?;
    // The day by its place on the axis: -7300 stands at 32700, 21371 at 61371.
    let day = n / Utc::BOUND;
    let micro = n % Utc::BOUND;
    if day < 32700 || 61371 < day || 86_400_000_000 <= micro {
        return Err(Refusal::NoImage);
    }
    Ok((day - 32700) * 86_400_000_000 + micro)
}

// The last fields that are not later than n microseconds since day -7300.
fn fields_at(h3: bool, n: u64) -> Fields
    requires { n < 2477260800000000 }
    ensures { result ≡ fields_at h3 n }
{
    Fields {
        week: (n / 604_800_000_000) as u16,
        h3,
        second: (n / 1_000_000 % 604_800) as u32,
        fraction: crate::fraction_at(n % 1_000_000),
    }
}

// The H3 that a mark is written with.
fn h3_of(mark: Mark) -> bool
    ensures { result ≡ h3_of mark }
{
    matches!(mark, Mark::Proteus(true))
}

pub fn write(h: Handed, out: &mut [u8]) -> Result<usize, Refusal>
    ensures { wrote result out.new ≡ write h out.old }
{
    let n = since_1980(h)?;
    layout_fields::proteus::write(fields_at(h3_of(h.mark()), n), out)
}
