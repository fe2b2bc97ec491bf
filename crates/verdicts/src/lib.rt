// Commands about what holds of a sheet: assured choices, cores, the least fault interval, which of two sheets a box loads. What is read and
// written no contract can say; that all of it is safe and ends is proved.
#![tactic(auto)]

pub mod assuring;
pub mod judging;
pub mod least;
pub mod placing;
pub mod releasing;
