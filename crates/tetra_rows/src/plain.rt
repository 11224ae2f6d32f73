// The written code by sums and index formulas. It stands on no other crate. Everything is numbered from 0.
pub mod code;
pub mod data;
pub mod rules;
pub mod stolen;
