//! Images in memory that the caller owns. A list of commands, as C lays them out, is run on rows of
//! pixels that lie a stride apart.
//!
//! One body serves each format. It takes no memory, keeps nothing between two calls, and reports
//! every refusal with a status.
#![tactic(auto)]

pub mod command;
pub mod flatten;
pub mod format;
mod kind;
pub mod layout;
mod list;
mod operator;
mod read;
pub mod run;
mod size;
pub mod status;
