// A catalogue of school sheets (document 02, 2026-04): up to 64 schools, each with its format word, which come and go through the year.
// It is 194 words of 64 bits, and the calls work on it where it lies: nothing is copied out and back.
#![tactic(auto)]

pub mod acts;
pub mod catalogue;
pub mod entries;
pub mod error;
pub mod lookup;
mod search;
