// The prefixes, as both ways spell them.
ghost use Rattle.std.specs.Prelude.{◌≡◌};
ghost use Rattle.text_fields.specs.Meaning.{prefix_of};

use scales::Scale;

#[tactic(auto, unfolding(crate::specs::Meaning::prefix_of))]
pub fn prefix(z: Scale) -> [u8; 4]
    ensures { result ≡ prefix_of z }
{
    match z {
        Scale::Tai => *b"TAI=",
        Scale::Utc => *b"UTC=",
        Scale::Gps => *b"GPS=",
    }
}
