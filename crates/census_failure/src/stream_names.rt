//! What the streams that the program was started with are called.

/// Standard input, where it is read in place of a file.
pub const INPUT_NAME: &str = "standard input";

/// Standard output, where it is written in place of a file.
pub const OUTPUT_NAME: &str = "standard output";
