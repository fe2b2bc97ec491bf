// What both rules share.
pub mod by_rank;
pub mod choice;
pub mod climb;
pub mod columns;
pub mod entries;
pub mod jump;
pub mod load;
pub mod search;
pub mod taken;
pub mod tasks;
