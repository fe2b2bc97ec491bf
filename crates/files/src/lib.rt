// Files that are written: whole or not at all, over links, and what is no regular file as it stands. What is read and written no contract can
// say; that all of it is safe and ends is proved.
#![tactic(auto)]

mod links;
pub mod opened;
pub mod saving;
