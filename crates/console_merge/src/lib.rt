// The requests of two edits of one card: planner and checker on cards, rows and plan that PARTS has.
#![tactic(auto)]

ghost use Rattle.std.specs.Prelude.{◌≡◌, true, ◌≤◌, length};
ghost use Rattle.program_output.specs.Pages.{page, added};
ghost use Rattle.console_answers.specs.Texts.{spaced};
ghost use Rattle.console_entries.specs.Rooms.{most_room, number_room};
ghost use Rattle.console_parts.specs.Parts.{most_octets};
ghost use Rattle.merge.specs.Paired.{paired};
ghost use Rattle.merge.specs.Outcome.{planned};
ghost use Rattle.console_merge.specs.MergeAnswers.{paired_text, numbers_word, written_word, numbers_in, planned_by, planned_text, checked_text, plan_of, check_with, check_of, plan_answer, is_check, check_answer};

use console_entries::rooms;
use console_parts::{ENTRY, NUMBER};
use numbers::refusal::Refusal;

// The most numbers of room that a request may ask for.
const ROOM: usize = 70000;

// The most octets that a line sends.
const OCTETS: usize = 70000;

// The most numbers of a plan among so many octets.
const NUMBERS: usize = 17500;

// How many numbers a pair has.
const PAIR: usize = 2;

// The parts of a request to the planner, and to the checker, which has a plan too.
const PLAN_PARTS: usize = 4;

const CHECK_PARTS: usize = 5;

// Adds `ok PAIRS`, or the refusal.
fn put_paired(out: &mut [u8], at: usize, p: Result<usize, Refusal>) -> usize
    ensures { page result out.new ≡ added (paired_text (paired p)) (page at out.old) }
{
    match p {
        Ok(n) => console_answers::put_done(out, at, n),
        Err(refusal) => console_answers::put_refusal(out, at, refusal),
    }
}

// Adds a space and the numbers, or `-` for none.
fn put_numbers(out: &mut [u8], at: usize, s: &[u32]) -> usize
    ensures { page result out.new ≡ added (spaced (numbers_word s.now)) (page at out.old) }
{
    if s.len() == 0 {
        return program_output::put_all(out, at, b" -");
    }
    console_answers::put_spaced_numbers(out, at, s)
}

// Adds the numbers that the planner wrote; nothing on a refusal.
fn put_written(out: &mut [u8], at: usize, p: Result<usize, Refusal>, s: &[u32]) -> usize
    ensures { page result out.new ≡ added (written_word (paired p) s.now) (page at out.old) }
{
    match p {
        Ok(_) => put_numbers(out, at, s),
        Err(_) => at,
    }
}

// How many numbers so many pairs have, of at most so many; none on a refusal.
fn numbers_in(p: Result<usize, Refusal>, most: usize) -> usize
    ensures { result ≡ numbers_in (paired p) most }
{
    let Ok(n) = p else {
        return 0;
    };
    if n > most / PAIR {
        return most;
    }
    n * PAIR
}

// Adds the planner's answer, and what it left in its room.
fn put_planned(out: &mut [u8], at: usize, p: Result<usize, Refusal>, room: &[u32]) -> usize
    ensures { page result out.new ≡ added (planned_by (paired p) room.now (numbers_in (paired p) (length room.now))) (page at out.old) }
{
    let n = numbers_in(p, room.len());
    let word = put_paired(out, at, p);
    let end = put_written(out, word, p, octets::slices::numbers(room, n));
    console_answers::put_room_end(out, end, rooms::are_kept(room, n))
}

// Calls the planner on these parts with this room.
fn plan(s: &[u8], room: &mut [u32]) -> Result<usize, Refusal>
    requires { length s.now ≤ most_octets }
    ensures { planned (paired result) room.new ≡ plan_of s.now room.old }
{
    let one = console_parts::part_of(s, 2);
    let other = console_parts::part_of(s, 3);
    merge::lend_plan(
        console_parts::part_of(s, 0),
        console_parts::part_of(s, 1),
        console_parts::entries_of(one),
        one.len() / ENTRY,
        console_parts::entries_of(other),
        other.len() / ENTRY,
        room,
    )
}

// Adds the planner's answer on these parts with this room.
fn put_plan(s: &[u8], room: &mut [u32], out: &mut [u8], at: usize) -> usize
    requires { length s.now ≤ most_octets }
    ensures { page result out.new ≡ added (planned_text (plan_of s.now room.old)) (page at out.old) }
{
    let p = plan(s, room);
    put_planned(out, at, p, room)
}

// Adds the planner's answer with a fresh room of n numbers.
fn put_plan_fresh(s: &[u8], n: usize, out: &mut [u8], at: usize) -> usize
    requires { (length s.now ≤ most_octets) × (n ≤ most_room) }
    ensures { page result out.new ≡ added (planned_text (plan_of s.now (number_room n))) (page at out.old) }
{
    let mut room = [rooms::NUMBER_FILL; ROOM];
    put_plan(s, &mut room[0..n], out, at)
}

// Adds the answer to `plan ROOM PARTS`.
pub fn put_plan_answer(n: usize, s: &[u8], out: &mut [u8], at: usize) -> usize
    ensures { page result out.new ≡ added (plan_answer n s.now) (page at out.old) }
{
    if n > ROOM {
        return console_answers::put_bad(out, at);
    }
    if s.len() > OCTETS {
        return console_answers::put_bad(out, at);
    }
    if console_parts::holds_edits(s, PLAN_PARTS) {
        return put_plan_fresh(s, n, out, at);
    }
    console_answers::put_bad(out, at)
}

// Adds the checker's answer on these parts, with the plan as numbers.
fn put_check(s: &[u8], numbers: &[u32], out: &mut [u8], at: usize) -> usize
    requires { length s.now ≤ most_octets }
    ensures { page result out.new ≡ added (checked_text (check_with s.now numbers.now)) (page at out.old) }
{
    let left = console_parts::part_of(s, 2);
    let right = console_parts::part_of(s, 3);
    let p = merge::lend_check(
        console_parts::part_of(s, 0),
        console_parts::part_of(s, 1),
        console_parts::entries_of(left),
        left.len() / ENTRY,
        console_parts::entries_of(right),
        right.len() / ENTRY,
        numbers,
    );
    let end = put_paired(out, at, p);
    console_answers::put_end(out, end)
}

// Adds the checker's answer on these parts.
fn put_check_read(s: &[u8], out: &mut [u8], at: usize) -> usize
    requires { length s.now ≤ most_octets }
    ensures { page result out.new ≡ added (checked_text (check_of s.now)) (page at out.old) }
{
    let mut numbers = [0u32; NUMBERS];
    let t = console_parts::part_of(s, 4);
    console_parts::put_numbers(t, &mut numbers);
    put_check(
        s,
        octets::slices::numbers(&numbers, t.len() / NUMBER),
        out,
        at,
    )
}

// Whether octets are those of a request to the checker: five parts, rows of whole entries, and a plan of whole numbers.
fn is_check(s: &[u8]) -> bool
    ensures value { result ≡ is_check s.now }
    ensures s_len_bound { result ≡ true → length s.now ≤ most_octets }
{
    if s.len() > OCTETS {
        return false;
    }
    if console_parts::holds_edits(s, CHECK_PARTS) {
        return console_parts::is_whole(console_parts::part_of(s, 4), NUMBER);
    }
    false
}

// Adds the answer to `check-plan PARTS`.
pub fn put_check_answer(s: &[u8], out: &mut [u8], at: usize) -> usize
    ensures { page result out.new ≡ added (check_answer s.now) (page at out.old) }
{
    if is_check(s) {
        return put_check_read(s, out, at);
    }
    console_answers::put_bad(out, at)
}
