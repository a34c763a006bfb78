// Times, counts and ticks in bytes, for C.
ghost use Rattle.std.specs.Prelude.{◌≡◌};
ghost use Rattle.layout_fields.specs.Goce.{read as goce_read, write as goce_write};
ghost use Rattle.layout_fields.specs.Obet.{read as obet_read, write as obet_write};
ghost use Rattle.layout_fields.specs.Sbt.{read as sbt_read, write as sbt_write};
ghost use Rattle.layout_times.specs.Cuc.{read as cuc_read, writing as cuc_writing};
ghost use Rattle.layout_times.specs.Cryosat.{read as cryosat_read, writing as cryosat_writing};
ghost use Rattle.layout_times.specs.Siral.{read as siral_read, writing as siral_writing};
ghost use Rattle.layout_times.specs.Proteus.{read as proteus_read, writing as proteus_writing};
ghost use Rattle.c_api.specs.Meaning.{time_out, count_out};
ghost use Rattle.c_api.specs.Bytes.{wrote_of, writes, handed_writing};

use c_api::bytes::VrkWritten;
use c_api::{VrkCount, VrkHanded, VrkTime};

#[unsafe(no_mangle)]
pub extern "C" fn vrk_cuc_read(bytes: &[u8]) -> VrkTime
    ensures { result ≡ time_out (cuc_read bytes.now) }
{
    c_api::bytes::vrk_cuc_read(bytes)
}

#[unsafe(no_mangle)]
pub extern "C" fn vrk_cryosat_read(bytes: &[u8]) -> VrkTime
    ensures { result ≡ time_out (cryosat_read bytes.now) }
{
    c_api::bytes::vrk_cryosat_read(bytes)
}

#[unsafe(no_mangle)]
pub extern "C" fn vrk_siral_read(bytes: &[u8]) -> VrkTime
    ensures { result ≡ time_out (siral_read bytes.now) }
{
    c_api::bytes::vrk_siral_read(bytes)
}

#[unsafe(no_mangle)]
pub extern "C" fn vrk_goce_read(bytes: &[u8]) -> VrkCount
    ensures { result ≡ count_out (goce_read bytes.now) }
{
    c_api::bytes::vrk_goce_read(bytes)
}

#[unsafe(no_mangle)]
pub extern "C" fn vrk_obet_read(bytes: &[u8]) -> VrkCount
    ensures { result ≡ count_out (obet_read bytes.now) }
{
    c_api::bytes::vrk_obet_read(bytes)
}

#[unsafe(no_mangle)]
pub extern "C" fn vrk_sbt_read(bytes: &[u8]) -> VrkCount
    ensures { result ≡ count_out (sbt_read bytes.now) }
{
    c_api::bytes::vrk_sbt_read(bytes)
}

#[unsafe(no_mangle)]
pub extern "C" fn vrk_cuc_write(time: VrkHanded, out: &mut [u8]) -> VrkWritten
    ensures { wrote_of result out.new ≡ writes (handed_writing cuc_writing time) out.old }
{
    c_api::bytes::vrk_cuc_write(time, out)
}

#[unsafe(no_mangle)]
pub extern "C" fn vrk_cryosat_write(time: VrkHanded, out: &mut [u8]) -> VrkWritten
    ensures { wrote_of result out.new ≡ writes (handed_writing cryosat_writing time) out.old }
{
    c_api::bytes::vrk_cryosat_write(time, out)
}

#[unsafe(no_mangle)]
pub extern "C" fn vrk_siral_write(time: VrkHanded, out: &mut [u8]) -> VrkWritten
    ensures { wrote_of result out.new ≡ writes (handed_writing siral_writing time) out.old }
{
    c_api::bytes::vrk_siral_write(time, out)
}

#[unsafe(no_mangle)]
pub extern "C" fn vrk_goce_write(count: u64, out: &mut [u8]) -> VrkWritten
    ensures { wrote_of result out.new ≡ goce_write count out.old }
{
    c_api::bytes::vrk_goce_write(count, out)
}

#[unsafe(no_mangle)]
pub extern "C" fn vrk_obet_write(count: u64, out: &mut [u8]) -> VrkWritten
    ensures { wrote_of result out.new ≡ obet_write count out.old }
{
    c_api::bytes::vrk_obet_write(count, out)
}

#[unsafe(no_mangle)]
pub extern "C" fn vrk_sbt_write(tick: u32, out: &mut [u8]) -> VrkWritten
    ensures { wrote_of result out.new ≡ sbt_write tick out.old }
{
    c_api::bytes::vrk_sbt_write(tick, out)
}

#[unsafe(no_mangle)]
pub extern "C" fn vrk_proteus_read(bytes: &[u8]) -> VrkTime
    ensures { result ≡ time_out (proteus_read bytes.now) }
{
    c_api::bytes::vrk_proteus_read(bytes)
}

#[unsafe(no_mangle)]
pub extern "C" fn vrk_proteus_write(time: VrkHanded, out: &mut [u8]) -> VrkWritten
    ensures { wrote_of result out.new ≡ writes (handed_writing proteus_writing time) out.old }
{
    c_api::bytes::vrk_proteus_write(time, out)
}
