// The descriptors on which the program writes.
pub const STDOUT_FILENO: i32 = 1;

pub const STDERR_FILENO: i32 = 2;

// That on which the run command waits for the digit that tells how a command ended.
pub const STATUS_FILENO: i32 = 3;
