// Counts and refusals in words.
ghost use Rattle.std.specs.Prelude.{◌≡◌};
ghost use Rattle.numbers.specs.Refusals.{number};
ghost use Rattle.program_output.specs.Pages.{page, added};
ghost use Rattle.cabbook_messages.specs.Sentences.{amount, counted, refusal};

use numbers::refusal::Refusal;

// Adds a number and the text that follows it.
pub fn put_amount(room: &mut [u8], at: usize, n: usize, text: &[u8]) -> usize
    ensures { page result room.new ≡ added (amount n text.now) (page at room.old) }
{
    let number_end = program_output::digits::put_number(room, at, n);
    program_output::put_all(room, number_end, text)
}

// Adds a count of things.
pub fn put_count(room: &mut [u8], at: usize, n: usize, thing: &[u8]) -> usize
    ensures { page result room.new ≡ added (counted n thing.now) (page at room.old) }
{
    let end = put_amount(room, at, n, thing);
    program_output::put_unless(room, end, n == 1, b"s")
}

// Adds `refused NUMBER at octet PLACE`.
pub fn put_refusal(room: &mut [u8], at: usize, r: Refusal) -> usize
    ensures { page result room.new ≡ added (refusal (number r.0) r.1) (page at room.old) }
{
    let Refusal(reason, place) = r;
    let start = program_output::put_all(room, at, b"refused ");
    let number_end = put_amount(room, start, reason.number() as usize, b" at octet ");
    program_output::digits::put_number(room, number_end, place)
}
