// What every command needs of the world and no sheet: the words that the program is given, inputs, and how a command ends. What is read and
// written no contract can say; that all of it is safe and ends is proved.
#![tactic(auto)]

pub mod descriptors;
pub mod endings;
pub mod input;
pub mod numbers;
pub mod parts;
mod reasons;
pub mod words;
