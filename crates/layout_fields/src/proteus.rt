// Proteus, SMOS: week 12 bits, three zero bits, H3, second of week 32 bits, fraction 16 bits.
ghost use Rattle.std.specs.Prelude.{◌≡◌, ◌<◌};
ghost use Rattle.scales.specs.Meaning.{wrote};
ghost use Rattle.layout_fields.specs.Proteus.{slip, read, write, head_of};

use scales::Refusal;

#[derive(Clone, Copy)]
pub struct Fields {
    pub week: u16,
    pub h3: bool,
    pub second: u32,
    pub fraction: u16,
}

#[tactic(auto, unfolding(crate::specs::Proteus::read))]
pub fn read(b: &[u8]) -> Result<Fields, Refusal>
    ensures { slip result ≡ read b.now }
{
    if b.len() != 8 {
        return Err(Refusal::LengthIsNone);
    }
    let head = octets::inner::part(b, 0, 2);
    if head / 2 % 8 != 0 {
        return Err(Refusal::MarkerWrong);
    }
    let second = octets::inner::part(b, 2, 4);
    if 604_799 < second {
        return Err(Refusal::FieldOver);
    }
    let fraction = octets::inner::part(b, 6, 2);
    Ok(Fields {
        week: (head / 16) as u16,
        h3: head % 2 == 1,
        second: second as u32,
        fraction: fraction as u16,
    })
}

// The first two bytes: the week, three zero bits, H3.
fn head(week: u64, h3: bool) -> u64
    requires { week < 4096 }
    ensures { result ≡ head_of week h3 }
{
    week * 16 + u64::from(h3)
}

#[tactic(auto, unfolding(crate::specs::Proteus::write))]
pub fn write(f: Fields, out: &mut [u8]) -> Result<usize, Refusal>
    ensures { wrote result out.new ≡ write f out.old }
{
    let week = u64::from(f.week);
    let second = u64::from(f.second);
    if 4096 <= week || 604_799 < second {
        return Err(Refusal::FieldOver);
    }
    crate::place_two(
        head(week, f.h3),
        2,
        second * 65536 + u64::from(f.fraction),
        6,
        out,
    )
}
