// The descriptors of the three standard streams, which the system numbers.
pub const STDIN: i32 = 0;

pub const STDOUT: i32 = 1;

pub const STDERR: i32 = 2;
