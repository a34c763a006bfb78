// For our own crates, which know where a day lies before they ask.
ghost use Rattle.std.specs.Prelude.{◌≡◌, ◌<◌};
ghost use Rattle.axis.specs.Meaning.{place_of_day};

// The place of a day on the axis.
pub fn place_on(day: i64) -> u64
    requires { (0 < place_of_day day) × (place_of_day day < 100000) }
    ensures { result ≡ place_of_day day }
{
    (day + 40000) as u64
}
