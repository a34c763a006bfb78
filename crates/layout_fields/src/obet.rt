// OBET, SMOS: a byte that is 66 hexadecimal, then 32 bits coarse and 24 bits fine, kept as a 56-bit count.
ghost use Rattle.std.specs.Prelude.{◌≡◌};
ghost use Rattle.scales.specs.Meaning.{wrote, count_slip};
ghost use Rattle.layout_fields.specs.Obet.{read, write};

use scales::Refusal;

#[tactic(auto, unfolding(crate::specs::Obet::read))]
pub fn read(b: &[u8]) -> Result<u64, Refusal>
    ensures { count_slip result ≡ read b.now }
{
    if b.len() != 8 {
        return Err(Refusal::LengthIsNone);
    }
    if octets::inner::part(b, 0, 1) != 0x66 {
        return Err(Refusal::MarkerWrong);
    }
    Ok(octets::inner::part(b, 1, 7))
}

#[tactic(auto, unfolding(crate::specs::Obet::write))]
pub fn write(count: u64, out: &mut [u8]) -> Result<usize, Refusal>
    ensures { wrote result out.new ≡ write count out.old }
{
    // 2^56
    if 72_057_594_037_927_936 <= count {
        return Err(Refusal::FieldOver);
    }
    crate::place_two(0x66, 1, count, 7, out)
}
