// The season's file: TAI correlations of SBT with their covers. A signed number is its place, 2^63 further on than its bits, so that
// the order of numbers is the order of places.
#![tactic(auto)]

ghost use Rattle.std.specs.Prelude.{◌≡◌, ◌+◌, ◌*◌, ◌≤◌, ◌<◌, length};
ghost use Rattle.axis.specs.Signed.{turned};
ghost use Rattle.octets.specs.Meaning.{part};
ghost use Rattle.season.specs.Places.{count_in, entry_of, may_follow};

pub mod question;
pub mod reader;
pub mod writer;

// The place of 64 bits as a signed number, and back.
fn turn(bits: u64) -> u64
    ensures { result ≡ turned bits }
{
    bits.wrapping_add(1 << 63)
}

// The count of a file that has the length for it.
fn size(bytes: &[u8]) -> Option<usize>
    ensures { result ≡ count_in bytes.now }
{
    if bytes.len() < 2 {
        return None;
    }
    let n = octets::inner::part(bytes, 0, 2) as usize;
    (n <= 512 && bytes.len() == 2 + 48 * n).then_some(n)
}

// An entry of the contents: the places of its cover's ends, and where its body stands.
#[derive(Clone, Copy)]
struct Entry {
    from: u64,
    to: u64,
    position: u64,
}

// Entry k.
fn entry_at(bytes: &[u8], k: usize) -> Entry
    requires { (22 + 20 * k ≤ length bytes.now) × (k < 512) }
    ensures { result ≡ entry_of bytes.now k }
{
    let at = 2 + 20 * k;
    Entry {
        from: turn(octets::inner::part(bytes, at, 8)),
        to: turn(octets::inner::part(bytes, at + 8, 8)),
        position: octets::inner::part(bytes, at + 16, 4),
    }
}

// May this be entry k of n, where the cover before it ends at a place?
fn follows(e: Entry, n: usize, k: usize, before: u64) -> bool
    requires { (n ≤ 512) × (k < n) }
    ensures { result ≡ may_follow e n k before }
{
    e.position == (2 + 20 * n + 28 * k) as u64 && e.from <= e.to && (k == 0 || before < e.from)
}
