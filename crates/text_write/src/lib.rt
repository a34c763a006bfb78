// Writing a time as an Envisat text, in one of its four forms, onto the front of a lent slice.
#![tactic(auto)]

ghost use Rattle.std.specs.Prelude.{◌≡◌};
ghost use Rattle.scales.specs.Meaning.{wrote};
ghost use Rattle.text_write.specs.Meaning.{write_text};

use handed::Handed;
use leap::List;
use scales::Refusal;

mod image;
pub mod inner;

// The forms of 20, 27, 24 and 31 bytes.
#[derive(Clone, Copy)]
pub enum Form {
    Plain,
    Micros,
    Prefixed,
    PrefixedMicros,
}

impl Form {
    ghost use Rattle.text_write.specs.Meaning.{has_micros, shows_scale};
    ghost use Rattle.text_write.specs.Image.{size_of};

    pub(crate) fn has_micros(self) -> bool
        ensures { result ≡ has_micros self }
    {
        matches!(self, Form::Micros | Form::PrefixedMicros)
    }

    pub(crate) fn shows_scale(self) -> bool
        ensures { result ≡ shows_scale self }
    {
        matches!(self, Form::Prefixed | Form::PrefixedMicros)
    }

    // How many bytes a form has.
    pub(crate) fn size(self) -> usize
        ensures { result ≡ size_of self }
    {
        match self {
            Form::Plain => 20,
            Form::Micros => 27,
            Form::Prefixed => 24,
            Form::PrefixedMicros => 31,
        }
    }
}

// A time onto the front of a lent slice, in one of the four forms.
pub fn write(h: Handed, form: Form, list: &List, out: &mut [u8]) -> Result<usize, Refusal>
    ensures { wrote result out.new ≡ write_text h form list.now.days list.now.offsets list.now.last out.old }
{
    let r = handed::inner::lay(h)?;
    if changes::inner::lacks_list(changes::inner::is_utc(r.scale), list) {
        return Err(Refusal::ListNotAccepted);
    }
    inner::write_time(r, form, list, out)
}
