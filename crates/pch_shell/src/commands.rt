//! What each command makes of the bytes of its files.

pub mod check;
pub mod cnf;
pub mod compact;
pub mod demonstrating;
pub mod placing;
pub mod producing;
pub mod verifying;
