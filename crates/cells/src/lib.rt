// Numbers from number cells (document 02): what the digits under a reader's cursor come to.
#![tactic(auto)]

pub mod digit_run;
pub mod value;
