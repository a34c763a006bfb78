// CryoSat general: day 16 bits, millisecond 32 bits, microsecond 16 bits.
ghost use Rattle.std.specs.Prelude.{◌≡◌, ◌≤◌, length};
ghost use Rattle.scales.specs.Meaning.{wrote};
ghost use Rattle.layout_fields.specs.Cryosat.{in_limits, front_of, slip, read, write};

use scales::Refusal;

#[derive(Clone, Copy)]
pub struct Fields {
    pub day: u16,
    pub millisecond: u32,
    pub microsecond: u16,
}

// Are the two fields that have a limit below it?
pub(crate) fn in_limits(millisecond: u32, microsecond: u16) -> bool
    ensures { result ≡ in_limits millisecond microsecond }
{
    millisecond < 86_400_000 && microsecond < 1000
}

// The three fields that bytes begin with, or 3: SIRAL's begin so too.
pub(crate) fn front(b: &[u8]) -> Result<Fields, Refusal>
    requires { 8 ≤ length b.now }
    ensures { result ≡ front_of b.now }
{
    let millisecond = octets::inner::part(b, 2, 4) as u32;
    let microsecond = octets::inner::part(b, 6, 2) as u16;
    if !in_limits(millisecond, microsecond) {
        return Err(Refusal::FieldOver);
    }
    Ok(Fields {
        day: octets::inner::part(b, 0, 2) as u16,
        millisecond,
        microsecond,
    })
}

#[tactic(auto, unfolding(crate::specs::Cryosat::read))]
pub fn read(b: &[u8]) -> Result<Fields, Refusal>
    ensures { slip result ≡ read b.now }
{
    if b.len() != 8 {
        return Err(Refusal::LengthIsNone);
    }
    front(b)
}

#[tactic(auto, unfolding(crate::specs::Cryosat::write))]
pub fn write(f: Fields, out: &mut [u8]) -> Result<usize, Refusal>
    ensures { wrote result out.new ≡ write f out.old }
{
    if !in_limits(f.millisecond, f.microsecond) {
        return Err(Refusal::FieldOver);
    }
    crate::place_two(
        u64::from(f.day),
        2,
        u64::from(f.millisecond) * 65536 + u64::from(f.microsecond),
        6,
        out,
    )
}
