// The season's file, for C.
ghost use Rattle.std.specs.Prelude.{◌≡◌};
ghost use Rattle.season.specs.Meaning.{read, write, covering};
ghost use Rattle.c_api.specs.Bytes.{wrote_of};
ghost use Rattle.c_api.specs.Seasons.{cover_out, entered_of};

use crate::VrkCount;
use crate::bytes::VrkWritten;
use clock::Receipt;

#[repr(C)]
#[derive(Clone, Copy)]
pub struct VrkCover {
    pub refusal: u32,
    pub first: i64,
    pub last: i64,
}

pub fn vrk_season_read(bytes: &[u8], words: &mut [i64]) -> VrkCount
    ensures { entered_of result words.new ≡ read bytes.now words.old }
{
    season::reader::read(bytes, words).into()
}

pub fn vrk_season_write(words: &[i64], out: &mut [u8]) -> VrkWritten
    ensures { wrote_of result out.new ≡ write words.now out.old }
{
    season::writer::write(words, out).into()
}

pub fn vrk_season_covering(bytes: &[u8], receipt_day: i64, receipt_micro: u64) -> VrkCover
    ensures { result ≡ cover_out (covering bytes.now receipt_day receipt_micro) }
{
    let receipt = Receipt {
        day: receipt_day,
        micro: receipt_micro,
    };
    match season::question::covering(bytes, receipt) {
        Ok(c) => VrkCover {
            refusal: 0,
            first: c.first,
            last: c.last,
        },
        Err(f) => VrkCover {
            refusal: f.number(),
            first: 0,
            last: 0,
        },
    }
}
