// The statuses with which the tool ends.

// All is accepted.
pub const ACCEPTED: u8 = 0;

// Something is refused, or an upload differs from its file.
pub const REFUSED: u8 = 1;

// Wrong use, or a file that can't be read.
pub const FAILED: u8 = 2;
