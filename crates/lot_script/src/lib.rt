//! This crate reads scripts: lines of text that say what to do on an exclusive lot.
//!
//! The program `parklot run` is built on it. Upstream has no counterpart of this crate.
#![tactic(auto)]

pub mod script;
