//! Scripts made from a seed, and the text of a script's lines.
#![tactic(auto)]

mod draws;
mod line;
mod made;
mod room;

pub use line::write_line;
pub use made::generate;

#[cfg(test)]
mod tests;
