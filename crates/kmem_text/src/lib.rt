//! Texts: names, values, commands and replies, and how a script and a reply are spelled.
#![tactic(auto)]

mod build;
mod bytes;
mod command;
mod laws;
mod lines;
mod number;
mod reading;
mod reply;
mod script;
mod spelling;
mod text;
mod tokens;
mod words;

pub use bytes::{CARRIAGE_RETURN, COMMENT_SIGN, LINE_FEED, SPACE, TAB};
pub use command::{Command, Line, NameId, Reply, Script, Tag};
pub use laws::{law_layout, law_written};
pub use lines::cut_line;
pub use number::number_within;
pub use reading::{law_reread, read_reply};
pub use reply::write_reply;
pub use script::{ScriptError, read_script};
pub use spelling::{LineFault, Spelled, SpelledLine};
pub use text::{Name, Value};

#[cfg(test)]
mod tests;
