// For our own crates, whose fields are judged.
ghost use Rattle.std.specs.Prelude.{◌≡◌};
ghost use Rattle.layout_times.specs.Cryosat.{micros_in};

// The microseconds of the three fields that CryoSat and SIRAL begin with.
pub fn micros(day: u16, millisecond: u32, microsecond: u16) -> u64
    ensures { result ≡ micros_in day millisecond microsecond }
{
    u64::from(day) * 86_400_000_000 + u64::from(millisecond) * 1000 + u64::from(microsecond)
}
