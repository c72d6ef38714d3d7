//! An output in front of which a job's bytes are held back, and handed on where the job has answered.
#![tactic(auto)]

mod handing;
mod held;

pub use handing::hand_over;
pub use held::{HeldOutput, Lent, Origin};
