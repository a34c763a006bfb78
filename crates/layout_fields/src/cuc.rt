// CUC, Aeolus: seconds 32 bits, fraction 16 bits.
ghost use Rattle.std.specs.Prelude.{◌≡◌};
ghost use Rattle.scales.specs.Meaning.{wrote};
ghost use Rattle.layout_fields.specs.Cuc.{slip, read, write};

use scales::Refusal;

#[derive(Clone, Copy)]
pub struct Fields {
    pub seconds: u32,
    pub fraction: u16,
}

#[tactic(auto, unfolding(crate::specs::Cuc::read))]
pub fn read(b: &[u8]) -> Result<Fields, Refusal>
    ensures { slip result ≡ read b.now }
{
    if b.len() != 6 {
        return Err(Refusal::LengthIsNone);
    }
    Ok(Fields {
        seconds: octets::inner::part(b, 0, 4) as u32,
        fraction: octets::inner::part(b, 4, 2) as u16,
    })
}

#[tactic(auto, unfolding(crate::specs::Cuc::write))]
pub fn write(f: Fields, out: &mut [u8]) -> Result<usize, Refusal>
    ensures { wrote result out.new ≡ write f out.old }
{
    crate::place_two(u64::from(f.seconds), 4, u64::from(f.fraction), 2, out)
}
