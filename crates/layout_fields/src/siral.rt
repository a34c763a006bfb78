// SIRAL: CryoSat's three fields, then an extra counter of 16 bits.
ghost use Rattle.std.specs.Prelude.{◌≡◌};
ghost use Rattle.scales.specs.Meaning.{wrote};
ghost use Rattle.layout_fields.specs.Siral.{slip, read, write};

use scales::Refusal;

#[derive(Clone, Copy)]
pub struct Fields {
    pub day: u16,
    pub millisecond: u32,
    pub microsecond: u16,
    pub extra: u16,
}

#[tactic(auto, unfolding(crate::specs::Siral::read))]
pub fn read(b: &[u8]) -> Result<Fields, Refusal>
    ensures { slip result ≡ read b.now }
{
    if b.len() != 10 {
        return Err(Refusal::LengthIsNone);
    }
    let f = crate::cryosat::front(b)?;
    Ok(Fields {
        day: f.day,
        millisecond: f.millisecond,
        microsecond: f.microsecond,
        extra: octets::inner::part(b, 8, 2) as u16,
    })
}

#[tactic(auto, unfolding(crate::specs::Siral::write))]
pub fn write(f: Fields, out: &mut [u8]) -> Result<usize, Refusal>
    ensures { wrote result out.new ≡ write f out.old }
{
    if !crate::cryosat::in_limits(f.millisecond, f.microsecond) {
        return Err(Refusal::FieldOver);
    }
    let front = u64::from(f.day) * 4_294_967_296 + u64::from(f.millisecond);
    let back = u64::from(f.microsecond) * 65536 + u64::from(f.extra);
    crate::place_two(front, 6, back, 4, out)
}
