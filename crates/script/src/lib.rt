// The commands of a script: their fields, and where each ends. docs/DRILL.md has the script, byte by byte.
#![tactic(auto)]

pub mod commands;
mod fields;
