//! The sender of reliable scatterings: values that cannot be lost, and that leave the sender by being settled alone, as all
//! receivers hold them or as they are taken back everywhere.
#![tactic(auto)]

mod marks;
mod resend;
mod scattering;
mod sender;
mod state;

pub use scattering::{Aborted, AckStep, FailStep, Prepared, Preparing, RecallStep, Recalling};
pub use sender::{Sender, Window};
