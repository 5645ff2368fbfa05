// The octet that names each call of a script, and the lengths of calls. The names stay octets: a script holds them so, and the wrong ones too.

pub const OPEN: u8 = 1;

pub const ADD: u8 = 2;

pub const JUDGE: u8 = 3;

pub const SHOW: u8 = 4;

pub const HELD: u8 = 5;

pub const RELEASE: u8 = 6;

// The octets of a call with no tick: its name, and a number in four.
pub const LENGTH: usize = 5;

// The octets of an opening: a tick in four more.
pub const OPENING: usize = 9;

// The octets of an add before its chunk: a tick in four more, and the chunk's length in two.
pub const CHUNK: usize = 11;
