// Commands about what was recorded or typed: logs and suppliers' records, sheets typed by hand, texts. What is read and written no contract
// can say; that all of it is safe and ends is proved.
#![tactic(auto)]

mod following;
pub mod mending;
pub mod replaying;
pub mod texts;
