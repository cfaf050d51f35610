//! What a run leaves where a source or a sink failed at one of its steps: the same words for the libraries that run and for the
//! commands. There is no function.
#![tactic(auto)]
