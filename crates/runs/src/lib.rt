// SIRAL later in the second: its day, millisecond and microsecond stand still from pulse to pulse, while the extra counter of 16 bits
// counts on and rolls over. Packets of one second that are dated together tell how often it did.
#![tactic(auto)]

ghost use Rattle.std.specs.Prelude.{◌≡◌, ◌++◌, ◌+◌, ◌*◌, ◌%◌, ◌≤◌, ◌<◌, length, drop};
ghost use Rattle.octets.specs.Meaning.{PartIs};
ghost use Rattle.layout_fields.specs.Siral.{fields_of, slip, read};
ghost use Rattle.runs.specs.Meaning.{ahead, is_in_limits, siral};
ghost use Rattle.runs.specs.Passes.{packet_at, unrolled_in, limits_in, second_of, dates_from, Filling, run_slip};

use layout_fields::siral::Fields;
use scales::Refusal;

// How many dates were written, and the last total.
#[derive(Clone, Copy)]
pub struct Dates {
    pub count: usize,
    pub last: u64,
}

// Packet i.
fn packet(bytes: &[u8], i: usize) -> Result<Fields, Refusal>
    requires { 10 * i + 10 ≤ length bytes.now }
    ensures { slip result ≡ read (packet_at bytes.now i) }
{
    let at = 10 * i;
    layout_fields::siral::read(&bytes[at..at + 10])
}

// The eight bytes in front of packet i, its three fields in one number. Of two halves the compiler makes one load.
fn front(bytes: &[u8], i: usize) -> u64
    requires { 10 * i + 10 ≤ length bytes.now }
    ensures { PartIs bytes.now (10 * i) 8 result }
{
    let at = 10 * i;
    octets::inner::part(bytes, at, 4) * 4_294_967_296 + octets::inner::part(bytes, at + 4, 4)
}

// The extra counter of packet i.
fn extra_of(bytes: &[u8], i: usize) -> u64
    requires { 10 * i + 10 ≤ length bytes.now }
    ensures { PartIs bytes.now (10 * i + 8) 2 result }
{
    octets::inner::part(bytes, 10 * i + 8, 2)
}

// A total, and the extra counter that it leads to: so the next total waits for nothing but this one and its own step.
#[derive(Clone, Copy)]
struct Total {
    units: u64,
    extra: u64,
    ghost leads: { extra ≡ units % 65536 },
}

impl Total {
    fn new(units: u64) -> Self
        ensures { result.units ≡ units }
    {
        Total {
            units,
            extra: units % 65536,
        }
    }

    // The least total not below this one that leads to an extra counter.
    fn next(self, extra: u64) -> Self
        requires { (self.units ≤ 484848) × (extra < 65536) }
        ensures { result.units ≡ ahead self.units extra }
    {
        Total {
            units: self.units + (extra + 65536 - self.extra) % 65536,
            extra,
        }
    }
}

// The last total of packets whose three fields are the same and whose totals are not above the most.
fn unroll(bytes: &[u8], n: usize, told: u64) -> Option<u64>
    requires { (10 * n ≤ length bytes.now) × (0 < n) }
    ensures { result ≡ unrolled_in n bytes.now told }
{
    if 484_848 < told {
        return None;
    }
    let first = front(bytes, 0);
    let mut total = Total::new(told);
    for i in 0..n {
        if front(bytes, i) != first {
            return None;
        }
        total = total.next(extra_of(bytes, i));
        if 484_848 < total.units {
            return None;
        }
    }
    Some(total.units)
}

// Are the fields of packet i below their limits?
fn is_in_limits(bytes: &[u8], i: usize) -> bool
    requires { 10 * i + 10 ≤ length bytes.now }
    ensures { result ≡ is_in_limits (fields_of (packet_at bytes.now i)) }
{
    packet(bytes, i).is_ok()
}

// Are the fields of n packets below their limits?
fn all_in_limits(bytes: &[u8], n: usize) -> bool
    requires { 10 * n ≤ length bytes.now }
    ensures { result ≡ limits_in n bytes.now }
{
    (0..n).all(|i| is_in_limits(bytes, i))
}

// The place of the three fields of a run, and its last total.
#[derive(Clone, Copy)]
struct Second {
    from: u64,
    last: u64,
}

// The second of a run, or 3, 16, 7. Dates never fall, so that the last decides 7.
fn judge(bytes: &[u8], n: usize, told: u64) -> Result<Second, Refusal>
    requires { (10 * n ≤ length bytes.now) × (0 < n) }
    ensures { result ≡ second_of n bytes.now told }
{
    let Some(last) = unroll(bytes, n, told) else {
        if all_in_limits(bytes, n) {
            return Err(Refusal::NotOneSecond);
        }
        return Err(Refusal::FieldOver);
    };
    let f = packet(bytes, 0)?;
    // day 0 on the axis
    let from = 3_456_000_000_000_000
        + layout_times::inner::micros(f.day, f.millisecond, f.microsecond);
    // day 36525
    if 6_611_760_000_000_000 <= from + last * 33 / 16 {
        return Err(Refusal::OutsideSpan);
    }
    Ok(Second { from, last })
}

// The dates of n packets onto the front of a lent slice.
fn fill(bytes: &[u8], n: usize, from: u64, told: u64, dates: &mut [i64])
    requires { Filling bytes.now n from told (length dates.old) }
    ensures { dates.new ≡ dates_from n from told bytes.now ++ drop n dates.old }
{
    let mut total = Total::new(told);
    for i in 0..n {
        total = total.next(extra_of(bytes, i));
        dates[i] = axis::micros_at(from + total.units * 33 / 16);
    }
}

// The dates of a run, in TAI microseconds since day 0; `told` is the last total of the run that this one goes on from, or 0.
pub fn siral(bytes: &[u8], told: u64, dates: &mut [i64]) -> Result<Dates, Refusal>
    ensures { run_slip result dates.new ≡ siral bytes.now told dates.old }
{
    let n = bytes.len() / 10;
    if bytes.len() % 10 != 0 {
        return Err(Refusal::LengthIsNone);
    }
    if n == 0 {
        return Ok(Dates {
            count: 0,
            last: told,
        });
    }
    let second = judge(bytes, n, told)?;
    if dates.len() < n {
        return Err(Refusal::OutputShorter);
    }
    fill(bytes, n, second.from, told, dates);
    Ok(Dates {
        count: n,
        last: second.last,
    })
}
