// The fields of an Envisat text, for both ways.
#![tactic(auto)]

use calendar::Date;

pub mod inner;

// The fields of a text; its microsecond is that of the second.
#[derive(Clone, Copy)]
pub struct Stamp {
    pub date: Date,
    pub hour: u64,
    pub minute: u64,
    pub second: u64,
    pub micro: u64,
}
