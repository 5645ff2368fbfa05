// Limits of inputs, forms, desks and answers.

// The most octets of an input, a text, a written form and a session; a slot of a pool has as many.
pub const OCTETS: usize = 16384;

// Room for an input and one octet more, so that a longer one is seen.
pub const READ_ROOM: usize = 16385;

// The most slots of a desk.
pub const SLOTS: usize = 40;

// The octets of pool that a desk of so many slots has.
pub const POOL: usize = 655360;

// The next ticket of a desk whose tickets are used up: one more than the last ticket.
pub const TICKETS: u32 = 4294967295;

// The most octets of a line's first physical line.
pub const FIRST_LINE: usize = 75;

// The most octets of each later physical line after its space.
pub const LATER_LINE: usize = 74;

// The most properties that a card has at most once: its flags are the bits of one number.
pub const FLAGS: usize = 32;

// The numbers of a record.
pub const RECORD_LENGTH: usize = 8;

// The most entries of a row of sources, and the most CLIENTPIDMAP lines of a card in a merge.
pub const SOURCES: usize = 16;

// The largest number of a PID or a CLIENTPIDMAP in a merge.
pub const SOURCE_NUMBER: usize = 65535;

// The most logical lines of an accepted input: a line has at least 4 octets with its CR LF.
pub const LINES: usize = 4096;

// The factor of a refusal's number in the answer of a C routine.
pub const WORD: u64 = 4294967296;

// The largest number of 32 bits.
pub const LARGEST: usize = 4294967295;

// The most octets held by a session, in the width in which it counts them.
pub const HELD: u32 = 16384;
