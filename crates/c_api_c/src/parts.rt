// The fields of the byte layouts that have more than one, for C.
ghost use Rattle.std.specs.Prelude.{◌≡◌};
ghost use Rattle.layout_fields.specs.Cuc.{read as cuc_read};
ghost use Rattle.layout_fields.specs.Proteus.{read as proteus_read};
ghost use Rattle.layout_fields.specs.Cryosat.{read as cryosat_read};
ghost use Rattle.layout_fields.specs.Siral.{read as siral_read};
ghost use Rattle.c_api.specs.Bytes.{wrote_of, writes};
ghost use Rattle.c_api.specs.Parts.{cuc_fields, proteus_fields, cryosat_fields, siral_fields, cuc_fields_writing, proteus_fields_writing, cryosat_fields_writing, siral_fields_writing};

use c_api::bytes::VrkWritten;
use c_api::parts::{VrkCryosatFields, VrkCucFields, VrkProteusFields, VrkSiralFields};

#[unsafe(no_mangle)]
pub extern "C" fn vrk_cuc_fields_read(bytes: &[u8]) -> VrkCucFields
    ensures { result ≡ cuc_fields (cuc_read bytes.now) }
{
    c_api::parts::vrk_cuc_fields_read(bytes)
}

#[unsafe(no_mangle)]
pub extern "C" fn vrk_cuc_fields_write(seconds: u32, fraction: u32, out: &mut [u8]) -> VrkWritten
    ensures { wrote_of result out.new ≡ writes (cuc_fields_writing seconds fraction) out.old }
{
    c_api::parts::vrk_cuc_fields_write(seconds, fraction, out)
}

#[unsafe(no_mangle)]
pub extern "C" fn vrk_proteus_fields_read(bytes: &[u8]) -> VrkProteusFields
    ensures { result ≡ proteus_fields (proteus_read bytes.now) }
{
    c_api::parts::vrk_proteus_fields_read(bytes)
}

#[unsafe(no_mangle)]
pub extern "C" fn vrk_proteus_fields_write(
    week: u32,
    h3: u32,
    second: u32,
    fraction: u32,
    out: &mut [u8],
) -> VrkWritten
    ensures { wrote_of result out.new ≡ writes (proteus_fields_writing week h3 second fraction) out.old }
{
    c_api::parts::vrk_proteus_fields_write(week, h3, second, fraction, out)
}

#[unsafe(no_mangle)]
pub extern "C" fn vrk_cryosat_fields_read(bytes: &[u8]) -> VrkCryosatFields
    ensures { result ≡ cryosat_fields (cryosat_read bytes.now) }
{
    c_api::parts::vrk_cryosat_fields_read(bytes)
}

#[unsafe(no_mangle)]
pub extern "C" fn vrk_cryosat_fields_write(
    day: u32,
    millisecond: u32,
    microsecond: u32,
    out: &mut [u8],
) -> VrkWritten
    ensures { wrote_of result out.new ≡ writes (cryosat_fields_writing day millisecond microsecond) out.old }
{
    c_api::parts::vrk_cryosat_fields_write(day, millisecond, microsecond, out)
}

#[unsafe(no_mangle)]
pub extern "C" fn vrk_siral_fields_read(bytes: &[u8]) -> VrkSiralFields
    ensures { result ≡ siral_fields (siral_read bytes.now) }
{
    c_api::parts::vrk_siral_fields_read(bytes)
}

#[unsafe(no_mangle)]
pub extern "C" fn vrk_siral_fields_write(
    day: u32,
    millisecond: u32,
    microsecond: u32,
    extra: u32,
    out: &mut [u8],
) -> VrkWritten
    ensures { wrote_of result out.new ≡ writes (siral_fields_writing day millisecond microsecond extra) out.old }
{
    c_api::parts::vrk_siral_fields_write(day, millisecond, microsecond, extra, out)
}
