// For our own crates, which know how long their bytes are.
ghost use Rattle.std.specs.Prelude.{◌+◌, ◌≤◌, length};
ghost use Rattle.octets.specs.Meaning.{PartIs};

// The number that n bytes of a slice stand for, from a place on.
pub fn part(b: &[u8], from: usize, n: usize) -> u64
    requires { (from + n ≤ length b.now) × (n ≤ 8) }
    ensures { PartIs b.now from n result }
{
    crate::number_of(&b[from..from + n])
}
