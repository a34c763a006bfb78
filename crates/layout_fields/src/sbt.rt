// SBT: 4 bytes, the tick.
ghost use Rattle.std.specs.Prelude.{◌≡◌};
ghost use Rattle.scales.specs.Meaning.{tick_slip, wrote};
ghost use Rattle.layout_fields.specs.Sbt.{read, write};

use scales::{Refusal, Tick};

#[tactic(auto, unfolding(crate::specs::Sbt::read))]
pub fn read(b: &[u8]) -> Result<Tick, Refusal>
    ensures { tick_slip result ≡ read b.now }
{
    if b.len() != 4 {
        return Err(Refusal::LengthIsNone);
    }
    Ok(Tick(octets::inner::part(b, 0, 4) as u32))
}

#[tactic(auto, unfolding(crate::specs::Sbt::write))]
pub fn write(tick: Tick, out: &mut [u8]) -> Result<usize, Refusal>
    ensures { wrote result out.new ≡ write tick.0 out.old }
{
    crate::place(u64::from(tick.0), 4, out)
}
