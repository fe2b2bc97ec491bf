// The published times.
pub mod response;
pub mod times;
