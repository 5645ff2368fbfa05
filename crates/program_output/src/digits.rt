// Numbers in decimal digits, and an octet in two hexadecimal ones.
ghost use Rattle.std.specs.Prelude.{◌≡◌, ◌<◌, ◌≤◌, take};
ghost use Rattle.program_output.specs.Pages.{page, added};
ghost use Rattle.program_output.specs.Digits.{hex_digit_ascii, decimal_in, decimal, pair};

// The most decimal digits of a number of 64 bits.
pub const DIGITS: usize = 20;

// How far a hexadecimal digit that is a letter stands above its value.
const LETTERS: u8 = b'a' - 10;

// Adds a number in decimal digits.
pub fn put_number(room: &mut [u8], at: usize, n: usize) -> usize
    ensures { page result room.new ≡ added (decimal n) (page at room.old) }
{
    put_digits(room, at, n, DIGITS)
}

// Adds a number in decimal digits, at most so many.
fn put_digits(room: &mut [u8], at: usize, n: usize, most: usize) -> usize
    ensures { page result room.new ≡ added (decimal_in most n) (page at room.old) }
{
    if most == 0 {
        return at;
    }
    if n < 10 {
        return crate::put(room, at, hex_digit(n as u8));
    }
    let next = put_digits(room, at, n / 10, most - 1);
    crate::put(room, next, hex_digit((n % 10) as u8))
}

// Puts a number's decimal digits at the start of the room, and answers how many there are.
pub fn decimal(n: usize, room: &mut [u8; DIGITS]) -> usize
    ensures value { take result room.new ≡ decimal n }
    ensures upper_bound { result ≤ 20 }
{
    put_number(room, 0, n)
}

// The hexadecimal digit of a number below 16.
fn hex_digit(n: u8) -> u8
    requires { n < 16 }
    ensures { result ≡ hex_digit_ascii n }
{
    if n < 10 {
        return b'0' + n;
    }
    LETTERS + n
}

// Adds an octet's two hexadecimal digits.
pub fn put_pair(room: &mut [u8], at: usize, octet: u8) -> usize
    ensures { page result room.new ≡ added (pair octet) (page at room.old) }
{
    let next = crate::put(room, at, hex_digit(octet / 16));
    crate::put(room, next, hex_digit(octet % 16))
}
