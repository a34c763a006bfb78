// SIRAL's runs, for C.
ghost use Rattle.std.specs.Prelude.{◌≡◌};
ghost use Rattle.runs.specs.Meaning.{siral};
ghost use Rattle.c_api.specs.Runs.{run_of};

use c_api::run::VrkRun;

#[unsafe(no_mangle)]
pub extern "C" fn vrk_siral_run(bytes: &[u8], told: u64, dates: &mut [i64]) -> VrkRun
    ensures { run_of result dates.new ≡ siral bytes.now told dates.old }
{
    c_api::run::vrk_siral_run(bytes, told, dates)
}
