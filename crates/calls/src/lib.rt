// The library as C and Rust call it: numbers and slices, a slice as pointer then length. A refusal is its number. Parameters that belong together come one
// by one, and answers go to places that are lent, since C hands them over so.
#![tactic(auto)]

mod form;
mod numbers;
pub mod rules;
pub mod texts;
pub mod walks;
