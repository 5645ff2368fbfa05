// Property numbers: the row of each property in the table, and 0 for any other name.

// A name that is not in the table.
pub const OTHER: usize = 0;

pub const BEGIN: usize = 1;

pub const END: usize = 2;

pub const SOURCE: usize = 3;

pub const KIND: usize = 4;

pub const XML: usize = 5;

pub const FN: usize = 6;

pub const N: usize = 7;

pub const NICKNAME: usize = 8;

pub const PHOTO: usize = 9;

pub const BDAY: usize = 10;

pub const ANNIVERSARY: usize = 11;

pub const GENDER: usize = 12;

pub const ADR: usize = 13;

pub const TEL: usize = 14;

pub const EMAIL: usize = 15;

pub const IMPP: usize = 16;

pub const LANG: usize = 17;

pub const TZ: usize = 18;

pub const GEO: usize = 19;

pub const TITLE: usize = 20;

pub const ROLE: usize = 21;

pub const LOGO: usize = 22;

pub const ORG: usize = 23;

pub const MEMBER: usize = 24;

pub const RELATED: usize = 25;

pub const CATEGORIES: usize = 26;

pub const NOTE: usize = 27;

pub const PRODID: usize = 28;

pub const REV: usize = 29;

pub const SOUND: usize = 30;

pub const UID: usize = 31;

pub const CLIENTPIDMAP: usize = 32;

pub const URL: usize = 33;

pub const VERSION: usize = 34;

pub const KEY: usize = 35;

pub const FBURL: usize = 36;

pub const CALADRURI: usize = 37;

pub const CALURI: usize = 38;

// How many rows edition one has, row 0 counted in.
pub const COUNT: usize = 39;

// The rows that edition two adds.
pub const CREATED: usize = 39;

pub const GRAMGENDER: usize = 40;

pub const LANGUAGE: usize = 41;

pub const PRONOUNS: usize = 42;

pub const SOCIALPROFILE: usize = 43;

// How many rows the table has, row 0 and those of edition two counted in.
pub const ALL: usize = 44;
