//! The words after the program's name, read by `clap`, and the program that they ask for.
#![tactic(auto)]

mod commands;
mod gen_words;
mod program;
mod run_words;
mod words;

pub use program::Program;
pub use words::program_of;

#[cfg(test)]
mod tests;
