// The fields of the byte layouts that have more than one, for C.
ghost use Rattle.std.specs.Prelude.{◌≡◌};
ghost use Rattle.layout_fields.specs.Cuc.{read as cuc_read};
ghost use Rattle.layout_fields.specs.Proteus.{read as proteus_read};
ghost use Rattle.layout_fields.specs.Cryosat.{read as cryosat_read};
ghost use Rattle.layout_fields.specs.Siral.{read as siral_read};
ghost use Rattle.c_api.specs.Bytes.{wrote_of, writes};
ghost use Rattle.c_api.specs.Parts.{cuc_fields, proteus_fields, cryosat_fields, siral_fields, cuc_fields_writing, proteus_fields_writing, cryosat_fields_writing, siral_fields_writing};

use crate::bytes::{REFUSED, VrkWritten};

#[repr(C)]
#[derive(Clone, Copy)]
pub struct VrkCucFields {
    pub refusal: u32,
    pub seconds: u32,
    pub fraction: u32,
}

#[repr(C)]
#[derive(Clone, Copy)]
pub struct VrkProteusFields {
    pub refusal: u32,
    pub week: u32,
    pub h3: u32,
    pub second: u32,
    pub fraction: u32,
}

#[repr(C)]
#[derive(Clone, Copy)]
pub struct VrkCryosatFields {
    pub refusal: u32,
    pub day: u32,
    pub millisecond: u32,
    pub microsecond: u32,
}

#[repr(C)]
#[derive(Clone, Copy)]
pub struct VrkSiralFields {
    pub refusal: u32,
    pub day: u32,
    pub millisecond: u32,
    pub microsecond: u32,
    pub extra: u32,
}

pub fn vrk_cuc_fields_read(bytes: &[u8]) -> VrkCucFields
    ensures { result ≡ cuc_fields (cuc_read bytes.now) }
{
    match layout_fields::cuc::read(bytes) {
        Ok(f) => VrkCucFields {
            refusal: 0,
            seconds: f.seconds,
            fraction: u32::from(f.fraction),
        },
        Err(f) => VrkCucFields {
            refusal: f.number(),
            seconds: 0,
            fraction: 0,
        },
    }
}

#[tactic(auto, unfolding(crate::specs::Bytes::writes, layout_fields::specs::Cuc::write))]
pub fn vrk_cuc_fields_write(seconds: u32, fraction: u32, out: &mut [u8]) -> VrkWritten
    ensures { wrote_of result out.new ≡ writes (cuc_fields_writing seconds fraction) out.old }
{
    let Ok(fraction) = u16::try_from(fraction) else {
        return REFUSED;
    };
    layout_fields::cuc::write(layout_fields::cuc::Fields { seconds, fraction }, out).into()
}

pub fn vrk_proteus_fields_read(bytes: &[u8]) -> VrkProteusFields
    ensures { result ≡ proteus_fields (proteus_read bytes.now) }
{
    match layout_fields::proteus::read(bytes) {
        Ok(f) => VrkProteusFields {
            refusal: 0,
            week: u32::from(f.week),
            h3: u32::from(f.h3),
            second: f.second,
            fraction: u32::from(f.fraction),
        },
        Err(f) => VrkProteusFields {
            refusal: f.number(),
            week: 0,
            h3: 0,
            second: 0,
            fraction: 0,
        },
    }
}

#[tactic(auto, unfolding(crate::specs::Bytes::writes, layout_fields::specs::Proteus::write))]
pub fn vrk_proteus_fields_write(
    week: u32,
    h3: u32,
    second: u32,
    fraction: u32,
    out: &mut [u8],
) -> VrkWritten
    ensures { wrote_of result out.new ≡ writes (proteus_fields_writing week h3 second fraction) out.old }
{
    if 1 < h3 {
        return REFUSED;
    }
    let (Ok(week), Ok(fraction)) = (u16::try_from(week), u16::try_from(fraction)) else {
        return REFUSED;
    };
    let fields = layout_fields::proteus::Fields {
        week,
        h3: h3 == 1,
        second,
        fraction,
    };
    layout_fields::proteus::write(fields, out).into()
}

pub fn vrk_cryosat_fields_read(bytes: &[u8]) -> VrkCryosatFields
    ensures { result ≡ cryosat_fields (cryosat_read bytes.now) }
{
    match layout_fields::cryosat::read(bytes) {
        Ok(f) => VrkCryosatFields {
            refusal: 0,
            day: u32::from(f.day),
            millisecond: f.millisecond,
            microsecond: u32::from(f.microsecond),
        },
        Err(f) => VrkCryosatFields {
            refusal: f.number(),
            day: 0,
            millisecond: 0,
            microsecond: 0,
        },
    }
}

#[tactic(auto, unfolding(crate::specs::Bytes::writes, layout_fields::specs::Cryosat::write))]
pub fn vrk_cryosat_fields_write(
    day: u32,
    millisecond: u32,
    microsecond: u32,
    out: &mut [u8],
) -> VrkWritten
    ensures { wrote_of result out.new ≡ writes (cryosat_fields_writing day millisecond microsecond) out.old }
{
    let (Ok(day), Ok(microsecond)) = (u16::try_from(day), u16::try_from(microsecond)) else {
        return REFUSED;
    };
    let fields = layout_fields::cryosat::Fields {
        day,
        millisecond,
        microsecond,
    };
    layout_fields::cryosat::write(fields, out).into()
}

pub fn vrk_siral_fields_read(bytes: &[u8]) -> VrkSiralFields
    ensures { result ≡ siral_fields (siral_read bytes.now) }
{
    match layout_fields::siral::read(bytes) {
        Ok(f) => VrkSiralFields {
            refusal: 0,
            day: u32::from(f.day),
            millisecond: f.millisecond,
            microsecond: u32::from(f.microsecond),
            extra: u32::from(f.extra),
        },
        Err(f) => VrkSiralFields {
            refusal: f.number(),
            day: 0,
            millisecond: 0,
            microsecond: 0,
            extra: 0,
        },
    }
}

#[tactic(auto, unfolding(crate::specs::Bytes::writes, layout_fields::specs::Siral::write))]
pub fn vrk_siral_fields_write(
    day: u32,
    millisecond: u32,
    microsecond: u32,
    extra: u32,
    out: &mut [u8],
) -> VrkWritten
    ensures { wrote_of result out.new ≡ writes (siral_fields_writing day millisecond microsecond extra) out.old }
{
    let (Ok(day), Ok(microsecond), Ok(extra)) = (
        u16::try_from(day),
        u16::try_from(microsecond),
        u16::try_from(extra),
    ) else {
        return REFUSED;
    };
    let fields = layout_fields::siral::Fields {
        day,
        millisecond,
        microsecond,
        extra,
    };
    layout_fields::siral::write(fields, out).into()
}
