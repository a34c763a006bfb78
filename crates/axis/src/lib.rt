// The one axis: signed days, and signed microseconds and counts since day 0, as naturals and back.
// Only these eight functions and the one of `inner` meet a signed number; all other code reckons with places.
#![tactic(auto)]

ghost use Rattle.std.specs.Prelude.{◌≡◌};
ghost use Rattle.axis.specs.Meaning.{is_between, place_of_day, day_at, place_of_micros, held_micros_at, place_of_counts, signed_of, bits_of};

pub mod inner;

// Whether a day lies from one day to another, both included.
pub fn is_between(first: i64, day: i64, last: i64) -> bool
    ensures { result ≡ is_between first day last }
{
    first <= day && day <= last
}

// The place of a day. One outside the axis stands at its nearer end, outside every span.
pub fn place_of_day(day: i64) -> u64
    ensures { result ≡ place_of_day day }
{
    (day.clamp(-40000, 60000) + 40000) as u64
}

// The day at a place.
pub fn day_at(place: u32) -> i64
    ensures { result ≡ day_at place }
{
    i64::from(place) - 40000
}

// The place of a microsecond since day 0, every day having 86,400 s.
pub fn place_of_micros(micros: i64) -> u64
    ensures { result ≡ place_of_micros micros }
{
    (micros.clamp(-3_456_000_000_000_000, 5_184_000_000_000_000) + 3_456_000_000_000_000) as u64
}

// The microsecond since day 0 at a place; a place after the axis stands for its end.
pub fn micros_at(place: u64) -> i64
    ensures { result ≡ held_micros_at place }
{
    place.min(8_640_000_000_000_000) as i64 - 3_456_000_000_000_000
}

// The place of a signed number of counts of 1/65536 s since day 0, every day having 86,400 s.
pub fn place_of_counts(counts: i64) -> u64
    ensures { result ≡ place_of_counts counts }
{
    (counts.clamp(-226_492_416_000_000, 339_738_624_000_000) + 226_492_416_000_000) as u64
}

// The signed number that 64 bits stand for.
pub fn signed_of(bits: u64) -> i64
    ensures { result ≡ signed_of bits }
{
    bits.cast_signed()
}

// The 64 bits of a signed number.
pub fn bits_of(n: i64) -> u64
    ensures { result ≡ bits_of n }
{
    n.cast_unsigned()
}
