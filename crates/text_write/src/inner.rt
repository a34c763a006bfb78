// The cores: a list that is used was accepted before, and is not tested here.
ghost use Rattle.std.specs.Prelude.{◌≡◌, true};
ghost use Rattle.scales.specs.Meaning.{wrote, in_span, record_moment};
ghost use Rattle.leap.specs.Meaning.{accepted};
ghost use Rattle.via_tai.specs.Meaning.{is_utc};
ghost use Rattle.text_write.specs.Meaning.{has_image};
ghost use Rattle.text_write.specs.Stage.{imaged, written_of};

use super::{Form, image};
use leap::List;
use scales::{Record, Refusal, Scale};

// Unprefixed forms are UTC, and a nonzero microsecond is not written to a short form.
fn has_image(form: Form, z: Scale, micro: u64) -> bool
    ensures { result ≡ has_image form z micro }
{
    (form.shows_scale() || changes::inner::is_utc(z))
        && (form.has_micros() || micro % 1_000_000 == 0)
}

pub fn write_record(r: Record, form: Form, out: &mut [u8]) -> Result<usize, Refusal>
    requires { in_span r.scale r.day r.micro ≡ true }
    ensures { wrote result out.new ≡ imaged form r.scale (record_moment r) out.old }
{
    if !has_image(form, r.scale, r.micro) {
        return Err(Refusal::NoImage);
    }
    let date = calendar::date_of(r.day)?;
    image::put_text(form, r.scale, image::stamp_of(date, r.micro), out)
}

pub fn write_time(r: Record, form: Form, list: &List, out: &mut [u8]) -> Result<usize, Refusal>
    requires { is_utc r.scale ≡ true → accepted list.now.days list.now.offsets list.now.last ≡ true }
    ensures { wrote result out.new ≡ written_of r form list.now.days list.now.offsets list.now.last out.old }
{
    write_record(changes::inner::judge(r, list)?, form, out)
}
