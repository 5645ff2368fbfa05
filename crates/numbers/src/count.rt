// Places of the counts of a report.

// How many uploads were judged.
pub const UPLOADS: usize = 0;

// How many of them were accepted.
pub const ACCEPTED: usize = 1;

// The cards of the accepted ones.
pub const CARDS: usize = 2;

// Their lines.
pub const LINES: usize = 3;

// Their octets.
pub const OCTETS: usize = 4;

// The first of the counts of refused uploads, one for each refusal of the judgement, by its number.
pub const REFUSALS: usize = 5;

// The first of the counts of accepted lines, one for each property number.
pub const PROPERTIES: usize = 20;

// How many counts there are.
pub const ALL: usize = 59;
