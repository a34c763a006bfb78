// For our own crates, which know that a day lies in the calendar.
ghost use Rattle.std.specs.Prelude.{◌≡◌, ◌≤◌};
ghost use Rattle.axis.specs.Meaning.{place_of_day};
ghost use Rattle.calendar.specs.Meaning.{is_first};

// Is a day from 1 January 1972 to 1 January 2100 the first of a month?
#[tactic(auto, using(crate::specs::Days::first_within, crate::specs::Formula::first_is))]
pub fn is_first(day: i64) -> bool
    requires { (29773 ≤ place_of_day day) × (place_of_day day ≤ 76525) }
    ensures { result ≡ is_first day }
{
    crate::scaled((axis::inner::place_on(day) - 29773) as u32) % 65536 < 2141
}
