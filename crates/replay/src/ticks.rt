// The machine tick by tick; it knows no log.
pub mod bits;
pub mod columns;
pub mod counting;
pub mod phases;
pub mod ready;
pub mod runner;
pub mod ticking;
