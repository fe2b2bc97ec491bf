// A sheet from an input, and the rules that it may break in words. What is read and written no contract can say; that all of it is safe and
// ends is proved.
#![tactic(auto)]

pub mod explanation;
pub mod sheets;
