// Times to their TAI counts and back from them, by the leap list: the two halves of every change of scale.
#![tactic(auto)]

pub mod inner;
