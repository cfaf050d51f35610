//! Tests of the crates of files, images, texts and words of the command line, and of the devices. They stand apart, since a
//! crate with tests is proved twice.
#![tactic(auto)]

#[cfg(test)]
mod answer;
#[cfg(test)]
mod bytes;
#[cfg(test)]
mod check;
#[cfg(test)]
mod command;
#[cfg(test)]
mod cut;
#[cfg(test)]
mod devices;
#[cfg(test)]
mod elf_read;
#[cfg(test)]
mod elf_write;
#[cfg(test)]
mod image;
#[cfg(test)]
mod make;
#[cfg(test)]
mod program;
#[cfg(test)]
mod render;
#[cfg(test)]
mod report;
#[cfg(test)]
mod trace;
