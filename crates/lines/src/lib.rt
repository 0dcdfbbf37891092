// What the programs read and write alike: what they are asked, the fields of a question, and the words, numbers and bytes of an answer.
#![tactic(auto)]

pub mod fields;
pub mod figure;
pub mod notes;
pub mod show;
pub mod source;
