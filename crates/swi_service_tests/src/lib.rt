//! Tests of the cache services, and of the runs over them. They stand apart, since a crate with tests is proved twice.
#![tactic(auto)]

#[cfg(test)]
mod cached;
#[cfg(test)]
mod engine;
#[cfg(test)]
mod links;
#[cfg(test)]
mod prefetch;
#[cfg(test)]
mod programs;
#[cfg(test)]
mod ring;
#[cfg(test)]
mod slots;
#[cfg(test)]
mod transfers;
