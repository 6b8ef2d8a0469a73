// Appenders of text: each stores from a place on in a lent buffer, and gives the place behind what it wrote.
// A struct of the buffer and the place would owe one clause more at each of them, that it still holds the same loan, and is no plainer so. No `Display`: each byte of a row is
// promised, and a formatter's contract does not say them.
#![tactic(auto)]

ghost use Rattle.std.specs.Prelude.{◌≡◌, [], ◌∷◌, ◌+◌, ◌*◌, ◌^◌, ◌<◌, ◌≤◌, nat_abs, length};
ghost use Rattle.text.specs.Text.{digits, decimal, signed_decimal, hex_digit, hex, spaced, Appended};

pub const SPACE: u8 = b' ';

pub const MINUS: u8 = b'-';

pub const LINE_FEED: u8 = b'\n';

pub fn put(out: &mut [u8], at: usize, byte: u8) -> usize
    requires { at < length out.old }
    ensures { Appended out.old at (byte ∷ []) out.new result }
{
    out[at] = byte;
    at + 1
}

// A number in decimal, at most `more` + 1 digits.
pub fn put_digits(out: &mut [u8], at: usize, n: usize, more: usize) -> usize
    requires { at + more < length out.old }
    ensures text { Appended out.old at (digits more n) out.new result }
    ensures end { result ≤ at + more + 1 }
{
    let last = b'0' + (n % 10) as u8;
    if more == 0 || n < 10 {
        return put(out, at, last);
    }
    let next = put_digits(out, at, n / 10, more - 1);
    put(out, next, last)
}

// A space and a number. A u32 has at most ten digits.
pub fn put_number(out: &mut [u8], at: usize, n: u32) -> usize
    requires { at + 11 ≤ length out.old }
    ensures text { Appended out.old at (spaced (decimal n)) out.new result }
    ensures end { result ≤ at + 11 }
{
    let next = put(out, at, SPACE);
    put_digits(out, next, n as usize, 9)
}

// A space and an integer. Below 2 to the 33 its absolute value has at most ten digits.
pub fn put_integer(out: &mut [u8], at: usize, e: i64) -> usize
    requires { (at + 12 ≤ length out.old) × (nat_abs e < 2 ^ 33) }
    ensures text { Appended out.old at (spaced (signed_decimal e)) out.new result }
    ensures end { result ≤ at + 12 }
{
    let next = put(out, at, SPACE);
    if e < 0 {
        let digits = put(out, next, MINUS);
        return put_digits(out, digits, e.unsigned_abs() as usize, 9);
    }
    put_digits(out, next, e.unsigned_abs() as usize, 9)
}

pub fn hex_digit(n: u8) -> u8
    requires { n < 16 }
    ensures { result ≡ hex_digit n }
{
    if n < 10 { b'0' + n } else { b'A' + (n - 10) }
}

pub fn put_hex_byte(out: &mut [u8], at: usize, byte: u8) -> usize
    requires { at + 2 ≤ length out.old }
    ensures text { Appended out.old at (hex (byte ∷ [])) out.new result }
    ensures end { result ≤ at + 2 }
{
    let high = hex_digit(byte / 16);
    let low = hex_digit(byte % 16);
    let next = put(out, at, high);
    put(out, next, low)
}

pub fn put_hex(out: &mut [u8], at: usize, bytes: &[u8]) -> usize
    requires { at + 2 * length bytes.now ≤ length out.old }
    ensures text { Appended out.old at (hex bytes.now) out.new result }
    ensures end { result ≤ at + 2 * length bytes.now }
{
    let mut next = at;
    for byte in bytes {
        next = put_hex_byte(out, next, *byte);
    }
    next
}
