// Room that is lent to an entry: of one value before the call, and looked at afterwards.
ghost use Rattle.std.specs.Prelude.{◌≡◌, length, drop, replicate};
ghost use Rattle.console_entries.specs.Rooms.{octet_fill, number_fill, all, both_kept};

// What each octet of room is before a call.
pub const OCTET_FILL: u8 = 165;

// What each number of room is before a call.
pub const NUMBER_FILL: u32 = 2779096485;

// Sets every octet.
pub fn fill(room: &mut [u8])
    ensures { room.new ≡ replicate (length room.old) octet_fill }
{
    room.fill(OCTET_FILL);
}

// Whether the octets from a place on are as they were set.
pub fn is_kept(room: &[u8], from: usize) -> bool
    ensures { result ≡ all octet_fill (drop from room.now) }
{
    let mut i = from;
    while i < room.len() {
        if room[i] != OCTET_FILL {
            return false;
        }
        i += 1;
    }
    true
}

// Whether the numbers from a place on are as they were set.
pub fn are_kept(room: &[u32], from: usize) -> bool
    ensures { result ≡ all number_fill (drop from room.now) }
{
    let mut i = from;
    while i < room.len() {
        if room[i] != NUMBER_FILL {
            return false;
        }
        i += 1;
    }
    true
}

// Whether the octets from n on and the numbers from k on are as they were set.
pub fn both_kept(copy: &[u8], n: usize, records: &[u32], k: usize) -> bool
    ensures { result ≡ both_kept (drop n copy.now) (drop k records.now) }
{
    if is_kept(copy, n) {
        return are_kept(records, k);
    }
    false
}
