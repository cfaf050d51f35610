//! Tests of `swi_top`: commands over devices in memory. They stand apart, since a crate with tests is proved twice.
#![tactic(auto)]

/// A row that is `QUIET` but for these fields.
#[cfg(test)]
macro_rules! row {
    ($($field:ident: $value:expr),*) => { Row { $($field: $value,)* ..QUIET } };
}

#[cfg(test)]
mod cached;
#[cfg(test)]
mod devices;
#[cfg(test)]
mod failures;
#[cfg(test)]
mod hostile;
#[cfg(test)]
mod images;
#[cfg(test)]
mod limits;
#[cfg(test)]
mod list;
#[cfg(test)]
mod measure;
#[cfg(test)]
mod prefetch;
#[cfg(test)]
mod profile;
#[cfg(test)]
mod programs;
#[cfg(test)]
mod rewrite;
#[cfg(test)]
mod runs;
#[cfg(test)]
mod share;
#[cfg(test)]
mod streams;
#[cfg(test)]
mod survey;
#[cfg(test)]
mod texts;
#[cfg(test)]
mod trace;
