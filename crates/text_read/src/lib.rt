// Reading an Envisat text, dd-mmm-yyyy hh:mm:ss, with .uuuuuu, and with RRR= before either, from any slice.
#![tactic(auto)]

ghost use Rattle.std.specs.Prelude.{◌≡◌};
ghost use Rattle.scales.specs.Meaning.{slip};
ghost use Rattle.text_read.specs.Meaning.{read_text};

use leap::List;
use scales::{Record, Refusal, Refused, Scale};

mod columns;
pub mod inner;

// The time that a text stands for, in the text's scale.
pub fn read(text: &[u8], list: &List) -> Result<Record, Refused>
    ensures { slip result ≡ read_text text.now list.now.days list.now.offsets list.now.last }
{
    let r = inner::parse(text).map_err(|f| f.of(Scale::Tai))?;
    if changes::inner::lacks_list(changes::inner::is_utc(r.scale), list) {
        return Err(Refusal::ListNotAccepted.of(Scale::Tai));
    }
    inner::read_time(r, list)
}
