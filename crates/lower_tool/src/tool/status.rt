// The statuses that the program ends with.

/// The job was done, and all was written.
pub const DONE: u8 = 0;

/// The verdict on the input is not fine.
pub const REFUSED: u8 = 1;

/// The words are no command.
pub const USAGE: u8 = 2;

/// A fault came while a file was read.
pub const CANNOT_READ: u8 = 3;

/// A fault came while the output was written.
pub const CANNOT_WRITE: u8 = 4;

/// No memory was found.
pub const OUT_OF_MEMORY: u8 = 5;
