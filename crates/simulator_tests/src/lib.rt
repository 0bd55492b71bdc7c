//! Tests of what has no threads: the exclusive lot with its table and its schedules, the
//! interleaved lot, the fair mutex, records, and scripts. All by their public calls alone.
//!
//! Steps and answers are lines of text, those of scripts and a few more. Rows are told so, and
//! arbitrary lists of steps; what a lot answers is compared with what its plain machine answers.
#![tactic(auto)]

#[cfg(test)]
mod fair;
#[cfg(test)]
mod interleaved;
#[cfg(test)]
mod lot;
#[cfg(test)]
mod memory;
#[cfg(test)]
mod plain;
#[cfg(test)]
mod player;
#[cfg(test)]
mod record;
#[cfg(test)]
mod recording_lot;
#[cfg(test)]
mod script;
#[cfg(test)]
mod table;
#[cfg(test)]
mod terminal;
#[cfg(test)]
mod told;
#[cfg(test)]
mod words;
