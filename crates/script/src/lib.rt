// Lines of a bench script, read.
#![tactic(auto)]

pub mod lines;
pub mod names;
#[cfg(test)]
mod tests;
pub mod words;
