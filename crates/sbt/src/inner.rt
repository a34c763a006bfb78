// What a file of correlations asks of each.
ghost use Rattle.std.specs.Prelude.{◌≡◌};
ghost use Rattle.sbt.specs.Places.{covered_by};

use crate::Correlation;
use clock::inner::Ends;

// The cover of a correlation that is accepted, in its own scale: time(-b) and time(a).
pub fn cover(c: Correlation) -> Option<Ends>
    ensures { result ≡ covered_by c }
{
    let r = crate::reference_of(c)?;
    Some(crate::ends_of(r, c.period, c.back, c.ahead))
}
