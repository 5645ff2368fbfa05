// Fields of a record: which of its eight numbers is which.

// The number of the line's property.
pub const PROPERTY: usize = 0;

// Where the line starts in the copy.
pub const START: usize = 1;

// How long the line is, without CR LF.
pub const LENGTH: usize = 2;

// How long the group is, 0 for none.
pub const GROUP: usize = 3;

// How long the name is.
pub const NAME: usize = 4;

// How many parameters there are.
pub const PARAMETERS: usize = 5;

// Where the value starts in the copy.
pub const VALUE: usize = 6;

// The kind of the value.
pub const KIND: usize = 7;
