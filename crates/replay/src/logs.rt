// Logs and a supplier's records as bytes, whole and in pieces.
pub mod going;
pub mod pieces;
pub mod rules;
