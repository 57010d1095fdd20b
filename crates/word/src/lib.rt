// The format word of 128 bits, its fields and flags, and the two checks of it: a port of the parts of lexical-util
// 1.0.7 that settle which word is valid, with the word as data.
#![tactic(auto)]

pub mod ascii;
pub mod byte_set;
pub mod digit;
pub mod error;
pub mod feature_format;
pub mod format_flags;
pub mod not_feature_format;
