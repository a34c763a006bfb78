// Times in bytes, one module for each layout that stands for a time.
#![tactic(auto)]

ghost use Rattle.std.specs.Prelude.{◌≡◌, ◌≤◌, ◌<◌};
ghost use Rattle.axis.specs.Meaning.{day_at};
ghost use Rattle.scales.specs.Meaning.{outcome, slip, spanned, valued, count_slip};
ghost use Rattle.layout_times.specs.Meaning.{moment_from, fraction_micros, fraction_at};
ghost use Rattle.layout_times.specs.Due.{due_in};

use handed::Handed;
use scales::{Record, Refusal, Refused, Scale};

pub mod cryosat;
pub mod cuc;
pub mod inner;
pub mod proteus;
pub mod siral;

// The time n microseconds after the beginning of a day, given by its place on the axis, every day having 86,400 s; or 7.
fn since(scale: Scale, from: u32, n: u64) -> Result<Record, Refused>
    requires { from ≤ 100000 }
    ensures { slip result ≡ spanned scale (moment_from (day_at from) n).day (moment_from (day_at from) n).micro }
{
    let day = axis::day_at(from + (n / 86_400_000_000) as u32);
    Record::new(scale, day, n % 86_400_000_000).judged()
}

// The microsecond that a 16-bit fraction of a second stands for: the nearest, halves upward.
fn fraction_micros(f: u16) -> u64
    ensures { result ≡ fraction_micros f }
{
    (u64::from(f) * 15625 + 512) / 1024
}

// The last 16-bit fraction of a second that is not later.
fn fraction_at(micros: u64) -> u16
    requires { micros < 1000000 }
    ensures { result ≡ fraction_at micros }
{
    ((micros * 65536 + 32767) / 1_000_000) as u16
}

// The count of a handed time where a time of a scale is due, or 4, 7, 12.
fn due(h: Handed, scale: Scale) -> Result<u64, Refusal>
    ensures { count_slip result ≡ valued 0 (outcome (due_in scale h)) }
{
    let t = handed::take(h)?;
    if t.scale() != scale {
        return Err(Refusal::NoImage);
    }
    Ok(t.count())
}
