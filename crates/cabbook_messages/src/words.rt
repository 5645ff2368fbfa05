// The words of a refusal, searched in a table: of each message its number, the length of its words, and the words.
ghost use Rattle.std.specs.Prelude.{◌≡◌};
ghost use Rattle.numbers.specs.Refusals.{number};
ghost use Rattle.program_output.specs.Pages.{page, added};
ghost use Rattle.cabbook_messages.specs.Words.{messages, words_of, table_of};

use numbers::refusal::Reason;
use octets::indices::wide;

// The octets before a message's words: its number and their length.
const HEAD: usize = 2;

// tools/messages makes the table from here on.
const SIZE: usize = 1426;

const MESSAGES: [u8; SIZE] = *b"\
    \x01\x2dover 16,384 octets: a book has at most 16,384\
    \x02\x1cno octets: the file is empty\
    \x03\x1ba line end that isn't CR LF\
    \x04\x24the last line doesn't end with CR LF\
    \x05\x21a control character, or not UTF-8\
    \x07\x26a value that the property doesn't take\
    \x08\x35BEGIN, VERSION and END take no group and no parameter\
    \x09\x2aa line out of order, or a card without END\
    \x0a\x32this property stands again, and a card has it once\
    \x0b\x29the card has no FN line, the name to show\
    \x0c\x23MEMBER in a card without KIND:group\
    \x0d\x13copy room too small\
    \x0e\x15record room too small\
    \x0f\x15output room too small\
    \x10\x32folded, escaped or encoded form over 16,384 octets\
    \x14\x0cno free slot\
    \x15\x0ftickets used up\
    \x16\x0fticket not open\
    \x17\x2fchunk would take the session over 16,384 octets\
    \x18\x24pool length isn't slots times 16,384\
    \x19\x14desk value not sound\
    \x1a\x1enew desk of 0 or over 40 slots\
    \x1e\x36bare comma, or backslash without \\ , ; n or N after it\
    \x1f\x1foctet not allowed, or bad UTF-8\
    \x28\x1fno name, or a bad name or group\
    \x29\x29parameter without '=', or with a bad name\
    \x2a\x1fquote left open or out of place\
    \x2b\x08no colon\
    \x2c\x31newline or quote mark, which RFC 6350 can't write\
    \x2d\x20lent buffer hasn't 16,384 octets\
    \x2e\x2dstate claims over 16,384 octets of the buffer\
    \x32\x29not a version 3 card that can be taken in\
    \x33\x1fcan't be given out in version 3\
    \x46\x2dno pairing of the two cards' lines would pass\
    \x47\x47more than one card, over 16 CLIENTPIDMAP lines, or a number over 65,535\
    \x48\x30row isn't the card's CLIENTPIDMAP lines in order\
    \x49\x20plan doesn't pass, another would\
    \x50\x2ea count of the report would pass 4,294,967,295";

// The table as a value.
fn table() -> [u8; SIZE]
    ensures { result ≡ table_of messages }
{
    MESSAGES
}

// The words of a refusal in the table; none where there is no such refusal.
fn words_of(t: &[u8], number: u32) -> &[u8]
    requires { t.now ≡ table_of messages }
    ensures { result.now ≡ words_of number }
{
    let mut from: usize = 0;
    while from < t.len() {
        let start = from + HEAD;
        let end = start + wide(t[from + 1]);
        if wide(t[from]) == number as usize {
            return &t[start..end];
        }
        from = end;
    }
    &t[..0]
}

// Adds the words of a refusal; none where there is no such refusal.
pub fn put_words(room: &mut [u8], at: usize, reason: Reason) -> usize
    ensures { page result room.new ≡ added (words_of (number reason)) (page at room.old) }
{
    let t = table();
    program_output::put_all(room, at, words_of(&t, reason.number()))
}
