// SIRAL's runs, for C.
ghost use Rattle.std.specs.Prelude.{◌≡◌};
ghost use Rattle.runs.specs.Meaning.{siral};
ghost use Rattle.c_api.specs.Runs.{run_of};

#[repr(C)]
#[derive(Clone, Copy)]
pub struct VrkRun {
    pub refusal: u32,
    pub count: u64,
    pub last: u64,
}

pub fn vrk_siral_run(bytes: &[u8], told: u64, dates: &mut [i64]) -> VrkRun
    ensures { run_of result dates.new ≡ siral bytes.now told dates.old }
{
    match runs::siral(bytes, told, dates) {
        Ok(d) => VrkRun {
            refusal: 0,
            count: d.count as u64,
            last: d.last,
        },
        Err(f) => VrkRun {
            refusal: f.number(),
            count: 0,
            last: 0,
        },
    }
}
