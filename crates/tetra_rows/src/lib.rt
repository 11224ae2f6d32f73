//! Tests alone: runs of the program over sources and sinks in memory, as tables, and the code by sums and index
//! formulas beside the faster one.
#![tactic(auto)]

#[cfg(test)]
mod back;
#[cfg(test)]
mod bytes;
#[cfg(test)]
mod calls;
#[cfg(test)]
mod carrier;
#[cfg(test)]
mod counted;
#[cfg(test)]
mod drawn;
#[cfg(test)]
mod faults;
#[cfg(test)]
mod made;
#[cfg(test)]
mod plain;
#[cfg(test)]
mod rows;
#[cfg(test)]
mod runs;
#[cfg(test)]
mod spread;
#[cfg(test)]
mod steps;
#[cfg(test)]
mod words;
