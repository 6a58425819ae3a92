//! What the replies part tells each pass, and how far the history has come in it.

use crate::told::Told;

/// The entries of a pass, and how many of them the history has had.
#[derive(Drop)]
pub struct Share {
    pub told: Vec<Told>,
    pub next: usize,
}
