// The octet that names each answer in a log. They stay octets: a log holds them so, and nothing here reads one back.

pub const REFUSED: u8 = 0;

pub const TOLD: u8 = 1;

pub const COUNTS: u8 = 2;

pub const PART: u8 = 3;
