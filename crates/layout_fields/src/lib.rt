// Bytes and fields, one module a byte layout: most significant byte first, all fields unsigned.
#![tactic(auto)]

ghost use Rattle.std.specs.Prelude.{◌≡◌, ◌++◌, ◌+◌, ◌≤◌};
ghost use Rattle.octets.specs.Meaning.{field};
ghost use Rattle.scales.specs.Meaning.{wrote, written, outcome};
ghost use Rattle.layout_fields.specs.Meaning.{placing};

use scales::Refusal;

pub mod cryosat;
pub mod cuc;
pub mod goce;
pub mod obet;
pub mod proteus;
pub mod sbt;
pub mod siral;

// x in n bytes and after it y in m bytes, onto the front of a lent slice; 13 where it is shorter.
fn place_two(x: u64, n: usize, y: u64, m: usize, out: &mut [u8]) -> Result<usize, Refusal>
    requires { n + m ≤ 16 }
    ensures { wrote result out.new ≡ written out.old (outcome (placing (field n x ++ field m y) out.old)) }
{
    let end = n + m;
    if out.len() < end {
        return Err(Refusal::OutputShorter);
    }
    octets::lay(x, &mut out[..n]);
    octets::lay(y, &mut out[n..end]);
    Ok(end)
}

// The same of one number.
#[tactic(auto, unfolding(octets::specs::Meaning::field))]
fn place(x: u64, n: usize, out: &mut [u8]) -> Result<usize, Refusal>
    requires { n ≤ 16 }
    ensures { wrote result out.new ≡ written out.old (outcome (placing (field n x) out.old)) }
{
    place_two(0, 0, x, n, out)
}
