// Kinds of value: the number that a record has for each.

// Any octets.
pub const ANYTHING: usize = 0;

// Text with escapes.
pub const TEXT: usize = 1;

// Texts split by bare commas.
pub const TEXTS: usize = 2;

// A URI.
pub const URI: usize = 3;

// Five components, each a list of texts.
pub const NAME: usize = 4;

// Seven components, each a list of texts.
pub const ADDRESS: usize = 5;

// One or more components without a bare comma.
pub const ORGANIZATION: usize = 6;

// A sex and a text.
pub const GENDER: usize = 7;

// Digits and a URI.
pub const PIDMAP: usize = 8;

// A date, a time, or both.
pub const DATE: usize = 9;

// A date with its time.
pub const TIMESTAMP: usize = 10;

// An offset from UTC.
pub const OFFSET: usize = 11;

// How many kinds there are.
pub const COUNT: usize = 12;
