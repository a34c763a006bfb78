// Envisat texts, for C.
ghost use Rattle.std.specs.Prelude.{◌≡◌};
ghost use Rattle.text_read.specs.Meaning.{read_text};
ghost use Rattle.c_api.specs.Meaning.{time_out};
ghost use Rattle.c_api.specs.Bytes.{wrote_of, writes, handed_writing};
ghost use Rattle.c_api.specs.Texts.{named_form, text_writing};

use crate::bytes::{REFUSED, VrkWritten};
use crate::{VrkHanded, VrkTime};
use handed::Handed;
use leap::List;
use text_write::Form;

// A form by its length.
fn form_named(length: u32) -> Option<Form>
    ensures { result ≡ named_form length }
{
    match length {
        20 => Some(Form::Plain),
        24 => Some(Form::Prefixed),
        27 => Some(Form::Micros),
        31 => Some(Form::PrefixedMicros),
        _ => None,
    }
}

pub fn vrk_text_read(text: &[u8], days: &[i64], offsets: &[u64], last: i64) -> VrkTime
    ensures { result ≡ time_out (read_text text.now days.now offsets.now last) }
{
    text_read::read(text, &List::new(days, offsets, last)).into()
}

#[tactic(auto, using(crate::proofs::Ways::text_unformed, crate::proofs::Ways::handed_three))]
pub fn vrk_text_write(
    time: VrkHanded,
    days: &[i64],
    offsets: &[u64],
    last: i64,
    form: u32,
    out: &mut [u8],
) -> VrkWritten
    ensures { wrote_of result out.new ≡ writes (handed_writing (text_writing form days.now offsets.now last) time) out.old }
{
    let Some(form) = form_named(form) else {
        return REFUSED;
    };
    let Ok(h) = Handed::try_from(time) else {
        return REFUSED;
    };
    text_write::write(h, form, &List::new(days, offsets, last), out).into()
}
