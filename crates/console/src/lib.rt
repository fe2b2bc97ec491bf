// What the commands say: lines on standard output, refusals, and what document 01 says of a sheet, which both programs print. What is written
// no contract can say; that all of it is safe and ends is proved.
#![tactic(auto)]

pub mod judging;
pub mod output;
pub mod passing;
pub mod refusals;
pub mod responses;
pub mod taking;
