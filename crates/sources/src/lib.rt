// A sheet from an input, bytes or text, with its tasks as the text has them, and what is not understood of a text in words. What is read and
// written no contract can say; that all of it is safe and ends is proved.
#![tactic(auto)]

mod explaining;
pub mod inputs;
mod packing;
mod quoting;
mod scanning;
mod tables;
pub mod taking;
pub mod titles;
