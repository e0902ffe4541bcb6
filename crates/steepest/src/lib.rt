//! Which of some blocks has the steepest way to its next corner: a tournament, mended in log n duels after one block's way has changed.
#![tactic(auto)]

pub mod contest;
pub mod way;

pub use contest::{Contest, build, mend, top};
pub use way::Way;
