// Where a record came from, for C: the code of its mark and the source that belongs to it.
ghost use Rattle.std.specs.Prelude.{◌≡◌};
ghost use Rattle.c_api.specs.Marks.{marked_by, mark_code, mark_source};

use scales::Mark;

#[tactic(auto, unfolding(crate::specs::Marks::marked_by))]
pub(crate) fn mark_named(code: u32, source: u64) -> Option<Mark>
    ensures { result ≡ marked_by code source }
{
    match (code, source) {
        (0, _) => Some(Mark::Plain),
        (1, 0) => Some(Mark::Proteus(false)),
        (1, 1) => Some(Mark::Proteus(true)),
        (2, reference) => Some(Mark::Correlated(reference)),
        _ => None,
    }
}

pub(crate) fn mark_code(mark: Mark) -> u32
    ensures { result ≡ mark_code mark }
{
    match mark {
        Mark::Plain => 0,
        Mark::Proteus(_) => 1,
        Mark::Correlated(_) => 2,
    }
}

pub(crate) fn mark_source(mark: Mark) -> u64
    ensures { result ≡ mark_source mark }
{
    match mark {
        Mark::Plain => 0,
        Mark::Proteus(h3) => u64::from(h3),
        Mark::Correlated(reference) => reference,
    }
}
