// GOCE OBT: 6 bytes, kept as a 48-bit count, no epoch.
ghost use Rattle.std.specs.Prelude.{◌≡◌};
ghost use Rattle.scales.specs.Meaning.{wrote, count_slip};
ghost use Rattle.layout_fields.specs.Goce.{read, write};

use scales::Refusal;

#[tactic(auto, unfolding(crate::specs::Goce::read))]
pub fn read(b: &[u8]) -> Result<u64, Refusal>
    ensures { count_slip result ≡ read b.now }
{
    if b.len() != 6 {
        return Err(Refusal::LengthIsNone);
    }
    Ok(octets::inner::part(b, 0, 6))
}

#[tactic(auto, unfolding(crate::specs::Goce::write))]
pub fn write(count: u64, out: &mut [u8]) -> Result<usize, Refusal>
    ensures { wrote result out.new ≡ write count out.old }
{
    // 2^48
    if 281_474_976_710_656 <= count {
        return Err(Refusal::FieldOver);
    }
    crate::place(count, 6, out)
}
