// Envisat texts, for C.
ghost use Rattle.std.specs.Prelude.{◌≡◌};
ghost use Rattle.text_read.specs.Meaning.{read_text};
ghost use Rattle.c_api.specs.Meaning.{time_out};
ghost use Rattle.c_api.specs.Bytes.{wrote_of, writes, handed_writing};
ghost use Rattle.c_api.specs.Texts.{text_writing};

use c_api::bytes::VrkWritten;
use c_api::{VrkHanded, VrkTime};

#[unsafe(no_mangle)]
pub extern "C" fn vrk_text_read(text: &[u8], days: &[i64], offsets: &[u64], last: i64) -> VrkTime
    ensures { result ≡ time_out (read_text text.now days.now offsets.now last) }
{
    c_api::texts::vrk_text_read(text, days, offsets, last)
}

#[unsafe(no_mangle)]
pub extern "C" fn vrk_text_write(
    time: VrkHanded,
    days: &[i64],
    offsets: &[u64],
    last: i64,
    form: u32,
    out: &mut [u8],
) -> VrkWritten
    ensures { wrote_of result out.new ≡ writes (handed_writing (text_writing form days.now offsets.now last) time) out.old }
{
    c_api::texts::vrk_text_write(time, days, offsets, last, form, out)
}
