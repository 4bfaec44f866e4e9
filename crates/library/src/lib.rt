//! Libraries: typing, mounting, and what is mounted.
#![tactic(auto)]

mod admitting;
mod contents;
mod definitions;
mod facts;
mod library;
mod listing;
mod mounting;
mod refusal;
mod scopes;
mod typing;
mod variables;
mod wanted;

pub use library::Library;
pub use refusal::MountFault;
