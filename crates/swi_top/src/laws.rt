//! Laws of the commands, which follow from what `top` answers.
#![tactic(auto)]

ghost use Rattle.swi_top.specs.Alike.{Completes, EndsAlike};

/// Two laws of the answers of [`top`](crate::top), for who reads them; it does nothing.
///
/// Where nothing stands in a command's way, it ends. And then a program that would not store into its text ends by
/// `cached`, or `trace`, just as by `plain`: the same answer, the same input left, and the same bytes on both sinks,
/// but for the counts that only the cached machine has, and, with `trace`, the errors.
///
/// Of an input that doesn't tell what is left, `top` answers so for each input from which what it gave may have been read;
/// both laws hold of each of these.
pub fn laws_of_top()
    ensures complete { Completes }
    ensures alike { EndsAlike }
{}
