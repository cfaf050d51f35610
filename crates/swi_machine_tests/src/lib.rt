//! Tests of the crates of the flat machine, from the fields of a word to whole runs. They stand apart, since a crate with tests is
//! proved twice.
#![tactic(auto)]

#[cfg(test)]
mod calls;
#[cfg(test)]
mod encode;
#[cfg(test)]
mod exec;
#[cfg(test)]
mod field;
#[cfg(test)]
mod flat;
#[cfg(test)]
mod isa;
#[cfg(test)]
mod line;
#[cfg(test)]
mod memory;
#[cfg(test)]
mod micro;
#[cfg(test)]
mod named;
