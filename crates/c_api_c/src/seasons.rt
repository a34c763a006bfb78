// The season's file, for C.
ghost use Rattle.std.specs.Prelude.{◌≡◌};
ghost use Rattle.season.specs.Meaning.{read, write, covering};
ghost use Rattle.c_api.specs.Bytes.{wrote_of};
ghost use Rattle.c_api.specs.Seasons.{cover_out, entered_of};

use c_api::VrkCount;
use c_api::bytes::VrkWritten;
use c_api::seasons::VrkCover;

#[unsafe(no_mangle)]
pub extern "C" fn vrk_season_read(bytes: &[u8], words: &mut [i64]) -> VrkCount
    ensures { entered_of result words.new ≡ read bytes.now words.old }
{
    c_api::seasons::vrk_season_read(bytes, words)
}

#[unsafe(no_mangle)]
pub extern "C" fn vrk_season_write(words: &[i64], out: &mut [u8]) -> VrkWritten
    ensures { wrote_of result out.new ≡ write words.now out.old }
{
    c_api::seasons::vrk_season_write(words, out)
}

#[unsafe(no_mangle)]
pub extern "C" fn vrk_season_covering(
    bytes: &[u8],
    receipt_day: i64,
    receipt_micro: u64,
) -> VrkCover
    ensures { result ≡ cover_out (covering bytes.now receipt_day receipt_micro) }
{
    c_api::seasons::vrk_season_covering(bytes, receipt_day, receipt_micro)
}
