//! The checker of certificates: whether a table of potentials shows that a message is the first-least
//! one, by rules alone. It does not stand on the decoder.
#![tactic(auto)]

mod checking;
mod lanes;
mod laws;
mod metrics;
mod rules;
mod steps;
mod tables;
mod verdict;

pub use checking::check;
pub use laws::accepted_exactly;
pub use metrics::metric;
pub use tetra_puncture::Rule;
pub use verdict::Verdict;
