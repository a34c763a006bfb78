// Big-endian fields of any number of bytes, and an image onto the front of a lent slice.
#![tactic(auto)]

ghost use Rattle.std.specs.Prelude.{◌≡◌, length};
ghost use Rattle.octets.specs.Meaning.{word, field, has_room, onto};

pub mod inner;

// The number that the bytes of a slice stand for, most significant first; its last 64 bits where the slice is longer than 8 bytes.
pub fn number_of(s: &[u8]) -> u64
    ensures { result ≡ word s.now }
{
    let mut n = 0;
    for b in s {
        // 2^56: what would leave the 64 bits is taken off first.
        n = n % 72_057_594_037_927_936 * 256 + u64::from(*b);
    }
    n
}

// The last bytes of a number, most significant first, as many as the lent slice has.
pub fn lay(v: u64, out: &mut [u8])
    ensures { out.new ≡ field (length out.old) v }
{
    let mut x = v;
    for i in (0..out.len()).rev() {
        out[i] = (x % 256) as u8;
        x /= 256;
    }
}

// An image onto the front of a lent slice, or nothing where the slice is shorter; whether it was written.
#[tactic(auto, using(crate::specs::Place::onto_room, crate::specs::Place::onto_none))]
pub fn put(image: &[u8], out: &mut [u8]) -> bool
    ensures { (result ≡ has_room image.now out.old) × (out.new ≡ onto image.now out.old) }
{
    if out.len() < image.len() {
        return false;
    }
    out[..image.len()].copy_from_slice(image);
    true
}
