// Tape files, reels as the emulator SIMH keeps them, converted into an image and back. It knows items and their lengths, and
// nothing of what a block holds.

#![tactic(auto)]

mod tape; // tape.rt: what stands at a place of a file
mod put; // put.rt: one item written where it has room
mod import; // import.rt: files checked, and written as an image
mod export; // export.rt: an image measured, and written as files

pub use export::{Tapes, to_simh};
pub use import::from_simh;
