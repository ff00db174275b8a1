//! Numbers in decimal digits, as the texts of this library have them: without a sign, and without a zero in front.
#![tactic(auto)]

pub use numbers::value_of;

mod numbers;
