// Times, counts and ticks in bytes, for C.
ghost use Rattle.std.specs.Prelude.{◌≡◌, List, ℕ};
ghost use Rattle.scales.specs.Meaning.{Judged, outcome, written, wrote};
ghost use Rattle.layout_fields.specs.Goce.{read as goce_read, write as goce_write};
ghost use Rattle.layout_fields.specs.Obet.{read as obet_read, write as obet_write};
ghost use Rattle.layout_fields.specs.Sbt.{read as sbt_read, write as sbt_write};
ghost use Rattle.layout_times.specs.Cuc.{read as cuc_read, writing as cuc_writing};
ghost use Rattle.layout_times.specs.Cryosat.{read as cryosat_read, writing as cryosat_writing};
ghost use Rattle.layout_times.specs.Siral.{read as siral_read, writing as siral_writing};
ghost use Rattle.layout_times.specs.Proteus.{read as proteus_read, writing as proteus_writing};
ghost use Rattle.c_api.specs.Meaning.{time_out, count_out};
ghost use Rattle.c_api.specs.Bytes.{wrote_of, written_out, writes, handed_writing};

use crate::{VrkCount, VrkHanded, VrkTime};
use handed::Handed;
use scales::{Refusal, Tick};

#[repr(C)]
#[derive(Clone, Copy)]
pub struct VrkWritten {
    pub refusal: u32,
    pub length: u64,
}

// The answer where a number stands for nothing.
pub(crate) const REFUSED: VrkWritten = VrkWritten {
    refusal: 3,
    length: 0,
};

impl From<Result<usize, Refusal>> for VrkWritten {
    ghost from_gives = { λ w r. r ≡ written_out w };

    fn from(w: Result<usize, Refusal>) -> VrkWritten {
        match w {
            Ok(n) => VrkWritten {
                refusal: 0,
                length: n as u64,
            },
            Err(f) => VrkWritten {
                refusal: f.number(),
                length: 0,
            },
        }
    }
}

pub fn vrk_cuc_read(bytes: &[u8]) -> VrkTime
    ensures { result ≡ time_out (cuc_read bytes.now) }
{
    layout_times::cuc::read(bytes).into()
}

pub fn vrk_cryosat_read(bytes: &[u8]) -> VrkTime
    ensures { result ≡ time_out (cryosat_read bytes.now) }
{
    layout_times::cryosat::read(bytes).into()
}

pub fn vrk_siral_read(bytes: &[u8]) -> VrkTime
    ensures { result ≡ time_out (siral_read bytes.now) }
{
    layout_times::siral::read(bytes).into()
}

pub fn vrk_goce_read(bytes: &[u8]) -> VrkCount
    ensures { result ≡ count_out (goce_read bytes.now) }
{
    layout_fields::goce::read(bytes).into()
}

pub fn vrk_obet_read(bytes: &[u8]) -> VrkCount
    ensures { result ≡ count_out (obet_read bytes.now) }
{
    layout_fields::obet::read(bytes).into()
}

pub fn vrk_sbt_read(bytes: &[u8]) -> VrkCount
    ensures { result ≡ count_out (sbt_read bytes.now) }
{
    layout_fields::sbt::read(bytes).into()
}

// A handed time by its layout's writer, or 3: for each meaning m that the writer has, the bytes are those of m.
fn write_by<W: FnOnce(Handed, &mut [u8]) -> Result<usize, Refusal>>(
    time: VrkHanded,
    out: &mut [u8],
    write: W,
) -> VrkWritten
    requires { W.IsAlwaysCallable write }
    ensures { (m : Handed → List ℕ → Judged (List ℕ)) →
        ((h : _) (b : _) (r : _) (a : _) → W.post write h b r a → wrote r a.now ≡ written b.now (outcome (m h b.now))) →
        wrote_of result out.new ≡ writes (handed_writing m time) out.old }
{
    match Handed::try_from(time) {
        Ok(h) => write(h, out).into(),
        Err(_) => REFUSED,
    }
}

pub fn vrk_cuc_write(time: VrkHanded, out: &mut [u8]) -> VrkWritten
    ensures { wrote_of result out.new ≡ writes (handed_writing cuc_writing time) out.old }
{
    write_by(time, out, layout_times::cuc::write)
}

pub fn vrk_cryosat_write(time: VrkHanded, out: &mut [u8]) -> VrkWritten
    ensures { wrote_of result out.new ≡ writes (handed_writing cryosat_writing time) out.old }
{
    write_by(time, out, layout_times::cryosat::write)
}

pub fn vrk_siral_write(time: VrkHanded, out: &mut [u8]) -> VrkWritten
    ensures { wrote_of result out.new ≡ writes (handed_writing siral_writing time) out.old }
{
    write_by(time, out, layout_times::siral::write)
}

pub fn vrk_goce_write(count: u64, out: &mut [u8]) -> VrkWritten
    ensures { wrote_of result out.new ≡ goce_write count out.old }
{
    layout_fields::goce::write(count, out).into()
}

pub fn vrk_obet_write(count: u64, out: &mut [u8]) -> VrkWritten
    ensures { wrote_of result out.new ≡ obet_write count out.old }
{
    layout_fields::obet::write(count, out).into()
}

pub fn vrk_sbt_write(tick: u32, out: &mut [u8]) -> VrkWritten
    ensures { wrote_of result out.new ≡ sbt_write tick out.old }
{
    layout_fields::sbt::write(Tick(tick), out).into()
}

pub fn vrk_proteus_read(bytes: &[u8]) -> VrkTime
    ensures { result ≡ time_out (proteus_read bytes.now) }
{
    layout_times::proteus::read(bytes).into()
}

pub fn vrk_proteus_write(time: VrkHanded, out: &mut [u8]) -> VrkWritten
    ensures { wrote_of result out.new ≡ writes (handed_writing proteus_writing time) out.old }
{
    write_by(time, out, layout_times::proteus::write)
}
