// A correlated counter's clock: what the dates of SBT's ticks and of GOCE's counts have in common, both ways.
// Inside, a time is its place on the clock's axis of microseconds, and an elapsed count is held with half the modulus added.
#![tactic(auto)]

pub mod inner;

// When a packet was received: a day and a microsecond of its correlation's scale.
#[derive(Clone, Copy)]
pub struct Receipt {
    pub day: i64,
    pub micro: u64,
}
