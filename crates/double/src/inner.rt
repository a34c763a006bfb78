// The cores: a bit pattern's parts, and the division whose result is the double nearest the quotient. Both numbers of it are held
// exactly, and neither is tested here.
ghost use Rattle.std.specs.Prelude.{◌≡◌, true, ◌^◌, ◌<◌};
ghost use Rattle.double.specs.Meaning.{signed, Holds, bits_of, QuotientOf};

// The sign, the exponent's field and the digits after the first.
#[derive(Clone, Copy)]
pub struct Bits {
    pub minus: bool,
    pub exponent: u64,
    pub digits: u64,
}

pub fn split(bits: u64) -> Bits
    ensures { result ≡ bits_of bits }
{
    Bits {
        minus: 0x8000_0000_0000_0000 <= bits,
        exponent: bits / 0x10_0000_0000_0000 % 2048,
        digits: bits % 0x10_0000_0000_0000,
    }
}

// n, or -n.
fn held(neg: bool, n: u64) -> f64
    requires { n < 2 ^ 53 }
    ensures { Holds result neg n 1 }
{
    let whole = n as f64;
    if neg { -whole } else { whole }
}

// n / d, or -n / d.
pub fn quotient(neg: bool, n: u64, d: u64) -> f64
    requires n_bound { (n < 2 ^ 53) × (neg ≡ true → 0 < n) }
    requires d_nonzero { (0 < d) × (d < 2 ^ 53) }
    ensures { QuotientOf (signed neg n) d result }
{
    held(neg, n) / held(false, d)
}
