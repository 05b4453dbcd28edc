//! Tests that cross crates, and nothing else: programs by the command, refusals, images by hand, hostile files.
//!
//! Promise: none: a test that fails stops the gate.
//! Definitions (`specs/`): `OneFunction`, the form of trees that a table of tests asks for.
//! Main lemmas (`proofs/`): `OneFunction`.
#![tactic(auto)]

#[cfg(test)]
mod calls;
#[cfg(test)]
mod constant_files;
#[cfg(test)]
mod declared_files;
#[cfg(test)]
mod examples;
#[cfg(test)]
mod front_rows;
#[cfg(test)]
mod front_tables;
#[cfg(test)]
mod hostile;
#[cfg(test)]
mod image_commands;
#[cfg(test)]
mod images;
#[cfg(test)]
mod initialised_files;
#[cfg(test)]
mod long_files;
#[cfg(test)]
mod marked_files;
#[cfg(test)]
mod meant_examples;
#[cfg(test)]
mod meant_files;
#[cfg(test)]
mod programs;
#[cfg(test)]
mod refusals;
#[cfg(test)]
mod run_command;
#[cfg(test)]
mod text_commands;
#[cfg(test)]
mod typed_files;
#[cfg(test)]
mod version_1;
#[cfg(test)]
mod whole_language;
