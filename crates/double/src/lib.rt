// A double (f64) as two whole numbers with a sign: what its bits stand for, and the double nearest a quotient.
#![tactic(auto)]

pub mod inner;
