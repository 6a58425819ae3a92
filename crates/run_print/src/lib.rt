//! What a run on threads prints of its history: the replies by worker, and the order of all commands.
#![tactic(auto)]

mod page;
mod print;

pub use page::Page;
pub use print::print_run;

#[cfg(test)]
mod tests;
