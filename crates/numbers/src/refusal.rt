// Refusals: the reason of each with its number, in the order of the table in docs/REFERENCE.md; a comment has the condition and the place.
ghost use Rattle.std.specs.Prelude.{◌≡◌};
ghost use Rattle.numbers.specs.Refusals.{number};

use crate::unlisted::Unlisted;

// Why an entry refuses. `ReplayCall` and those after it are a replay's own: no reader, desk or C routine answers them.
#[derive(Clone, Copy, Debug, PartialEq, Eq)]
pub enum Reason {
    // An input, a text, a value or a label of over 16,384 octets; at 16,384.
    TooLong,
    // An input of 0 octets; at 0.
    Empty,
    // A CR without LF after it, or an LF without CR before it; at the first such octet.
    LoneCrOrLf,
    // The last two octets of the input are not CR LF; at the input's length.
    NoEnd,
    // A logical line with an octet 00-08, 0A-1F or 7F, or with octets that are not UTF-8; at that octet, or at the bad character's first.
    BadOctet,
    // A value that breaks its kind; at the first octet from which no continuation satisfies it, or at the CR that ends the line.
    Value,
    // A group or a parameter on BEGIN, VERSION or END; at the line's start.
    Laden,
    // A line out of order, at its start; or an input that ends inside a card, at its length.
    Order,
    // A second line of a property that a card has at most once; at that line's start.
    Second,
    // No FN in the card; at the END line's start.
    NoFn,
    // MEMBER without a KIND line whose value is `group` in any case; at the END line's start.
    Member,
    // Copy room too small; the octets needed.
    CopyRoom,
    // Record room too small; the numbers needed.
    RecordRoom,
    // Output room too small; the octets needed.
    Room,
    // A folded, escaped or encoded form of over 16,384 octets; at 16,384.
    FormTooLong,
    // No slot is free; at 0.
    NoFreeSlot,
    // All tickets have been given out; at 0.
    TicketsUsedUp,
    // The ticket is not open; at 0.
    NotOpen,
    // The chunk would take the session over 16,384 octets; the octets held.
    SlotFull,
    // The pool's length is not slots times 16,384; at 0.
    PoolLength,
    // The desk value is not sound; at 0.
    Unsound,
    // A new desk of 0 or over 40 slots; at 0.
    SlotCount,
    // Text with a bare comma, or a backslash of no escape; at that octet.
    Escape,
    // Text, a value or a label with an octet that is not allowed, or with bad UTF-8; at its first octet.
    TextOctet,
    // A line with no name, or with a bad name or group; from here to 43 at the line's start.
    Name,
    // A parameter without `=`, or with a bad name.
    Parameter,
    // A quote that is left open, followed by something else than , ; : or standing in a bare value.
    Quote,
    // A line with no colon.
    NoColon,
    // A value with a newline or a quote mark, which RFC 6350's labels can't hold; at the first such octet.
    NoLabel,
    // A lent buffer that has not 16,384 octets; at 0.
    BufferLength,
    // A state that claims over 16,384 octets of the buffer; at 0.
    Claim,
    // A line that a version 3 card can't be taken in with, at its start; or FN, N or VERSION missing, at the END line's start.
    NotTakenIn,
    // A line that can't be given out in version 3, at its start; or N missing, at the END line's start.
    NotGivenOut,
    // Two cards for which no plan would pass; at 0.
    NoPlan,
    // Several cards in one input, over 16 entries or CLIENTPIDMAP lines, or a number over 65,535 in a PID or a CLIENTPIDMAP; at 0.
    MergeLimit,
    // A row of entries that is not its card's CLIENTPIDMAP lines in order; at 0.
    SourceRow,
    // A plan that does not pass where another would; at 0.
    Plan,
    // A count of a report would pass 4,294,967,295; at 0.
    ReportFull,
    // A call of a script that is unknown or cut off; at its first octet.
    ReplayCall,
    // The pool's length is not slots times 16,384; that length.
    ReplayPool,
    // The log may lack room for the answers; its length.
    ReplayLog,
    // Any other number, which no entry answers.
    Other(Unlisted),
}

// The number of each reason, under its name.
pub const TOO_LONG: u32 = 1;

pub const EMPTY: u32 = 2;

pub const LONE_CR_OR_LF: u32 = 3;

pub const NO_END: u32 = 4;

pub const BAD_OCTET: u32 = 5;

pub const VALUE: u32 = 7;

pub const LADEN: u32 = 8;

pub const ORDER: u32 = 9;

pub const SECOND: u32 = 10;

pub const NO_FN: u32 = 11;

pub const MEMBER: u32 = 12;

pub const COPY_ROOM: u32 = 13;

pub const RECORD_ROOM: u32 = 14;

pub const ROOM: u32 = 15;

pub const FORM_TOO_LONG: u32 = 16;

pub const NO_FREE_SLOT: u32 = 20;

pub const TICKETS_USED_UP: u32 = 21;

pub const NOT_OPEN: u32 = 22;

pub const SLOT_FULL: u32 = 23;

pub const POOL_LENGTH: u32 = 24;

pub const UNSOUND: u32 = 25;

pub const SLOT_COUNT: u32 = 26;

pub const ESCAPE: u32 = 30;

pub const TEXT_OCTET: u32 = 31;

pub const NAME: u32 = 40;

pub const PARAMETER: u32 = 41;

pub const QUOTE: u32 = 42;

pub const NO_COLON: u32 = 43;

pub const NO_LABEL: u32 = 44;

pub const BUFFER_LENGTH: u32 = 45;

pub const CLAIM: u32 = 46;

pub const NOT_TAKEN_IN: u32 = 50;

pub const NOT_GIVEN_OUT: u32 = 51;

pub const NO_PLAN: u32 = 70;

pub const MERGE_LIMIT: u32 = 71;

pub const SOURCE_ROW: u32 = 72;

pub const PLAN: u32 = 73;

pub const REPORT_FULL: u32 = 80;

pub const REPLAY_CALL: u32 = 90;

pub const REPLAY_POOL: u32 = 91;

pub const REPLAY_LOG: u32 = 92;

impl Reason {
    // The number by which a refusal is known.
    pub fn number(self) -> u32
        ensures { result ≡ number self }
    {
        match self {
            Reason::TooLong => TOO_LONG,
            Reason::Empty => EMPTY,
            Reason::LoneCrOrLf => LONE_CR_OR_LF,
            Reason::NoEnd => NO_END,
            Reason::BadOctet => BAD_OCTET,
            Reason::Value => VALUE,
            Reason::Laden => LADEN,
            Reason::Order => ORDER,
            Reason::Second => SECOND,
            Reason::NoFn => NO_FN,
            Reason::Member => MEMBER,
            Reason::CopyRoom => COPY_ROOM,
            Reason::RecordRoom => RECORD_ROOM,
            Reason::Room => ROOM,
            Reason::FormTooLong => FORM_TOO_LONG,
            Reason::NoFreeSlot => NO_FREE_SLOT,
            Reason::TicketsUsedUp => TICKETS_USED_UP,
            Reason::NotOpen => NOT_OPEN,
            Reason::SlotFull => SLOT_FULL,
            Reason::PoolLength => POOL_LENGTH,
            Reason::Unsound => UNSOUND,
            Reason::SlotCount => SLOT_COUNT,
            Reason::Escape => ESCAPE,
            Reason::TextOctet => TEXT_OCTET,
            Reason::Name => NAME,
            Reason::Parameter => PARAMETER,
            Reason::Quote => QUOTE,
            Reason::NoColon => NO_COLON,
            Reason::NoLabel => NO_LABEL,
            Reason::BufferLength => BUFFER_LENGTH,
            Reason::Claim => CLAIM,
            Reason::NotTakenIn => NOT_TAKEN_IN,
            Reason::NotGivenOut => NOT_GIVEN_OUT,
            Reason::NoPlan => NO_PLAN,
            Reason::MergeLimit => MERGE_LIMIT,
            Reason::SourceRow => SOURCE_ROW,
            Reason::Plan => PLAN,
            Reason::ReportFull => REPORT_FULL,
            Reason::ReplayCall => REPLAY_CALL,
            Reason::ReplayPool => REPLAY_POOL,
            Reason::ReplayLog => REPLAY_LOG,
            Reason::Other(other) => other.number,
        }
    }

    // The reason with a number.
    pub fn of(n: u32) -> Reason
        ensures { number result ≡ n }
    {
        match n {
            TOO_LONG => Reason::TooLong,
            EMPTY => Reason::Empty,
            LONE_CR_OR_LF => Reason::LoneCrOrLf,
            NO_END => Reason::NoEnd,
            BAD_OCTET => Reason::BadOctet,
            VALUE => Reason::Value,
            LADEN => Reason::Laden,
            ORDER => Reason::Order,
            SECOND => Reason::Second,
            NO_FN => Reason::NoFn,
            MEMBER => Reason::Member,
            COPY_ROOM => Reason::CopyRoom,
            RECORD_ROOM => Reason::RecordRoom,
            ROOM => Reason::Room,
            FORM_TOO_LONG => Reason::FormTooLong,
            NO_FREE_SLOT => Reason::NoFreeSlot,
            TICKETS_USED_UP => Reason::TicketsUsedUp,
            NOT_OPEN => Reason::NotOpen,
            SLOT_FULL => Reason::SlotFull,
            POOL_LENGTH => Reason::PoolLength,
            UNSOUND => Reason::Unsound,
            SLOT_COUNT => Reason::SlotCount,
            ESCAPE => Reason::Escape,
            TEXT_OCTET => Reason::TextOctet,
            NAME => Reason::Name,
            PARAMETER => Reason::Parameter,
            QUOTE => Reason::Quote,
            NO_COLON => Reason::NoColon,
            NO_LABEL => Reason::NoLabel,
            BUFFER_LENGTH => Reason::BufferLength,
            CLAIM => Reason::Claim,
            NOT_TAKEN_IN => Reason::NotTakenIn,
            NOT_GIVEN_OUT => Reason::NotGivenOut,
            NO_PLAN => Reason::NoPlan,
            MERGE_LIMIT => Reason::MergeLimit,
            SOURCE_ROW => Reason::SourceRow,
            PLAN => Reason::Plan,
            REPORT_FULL => Reason::ReportFull,
            REPLAY_CALL => Reason::ReplayCall,
            REPLAY_POOL => Reason::ReplayPool,
            REPLAY_LOG => Reason::ReplayLog,
            _ => Reason::Other(Unlisted { number: n }),
        }
    }
}

// What an entry answers that refuses: why, and the place.
#[derive(Clone, Copy, Debug, PartialEq, Eq)]
pub struct Refusal(pub Reason, pub usize);
