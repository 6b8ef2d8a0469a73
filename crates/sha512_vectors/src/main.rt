// Prints SHA-512 of FIPS 180-4's example messages, and of the byte `a` repeated, at lengths around the edges of the padding:
// two lines for each message, its digest whole and in two parts. The stored output is that of Python's hashlib, not of this program.
#![tactic(auto)]

ghost use Rattle.std.specs.Prelude.{◌≡◌, ◌≤◌, length, true, nat_le, ◌&&◌};
ghost use Rattle.std.specs.List.{list_all};

use sha512::{sha512, sha512_of_two};

// FIPS 180-4's examples, and where each is parted.
const EXAMPLES: [(&[u8], usize); 3] = [
    (b"abc", 1),
    (b"", 0),
    (
        b"abcdefghbcdefghicdefghijdefghijkefghijklfghijklmghijklmnhijklmnoijklmnopjklmnopqklmnopqrlmnopqrsmnopqrstnopqrstu",
        100,
    ),
];

// How many bytes `a` there are at most.
const MOST: usize = 66559;

// Lengths and where they are parted: seven whose padding leaves one block, six whose padding makes two, and longer ones.
const LENGTHS: [(usize, usize); 18] = [
    (0, 0),
    (1, 1),
    (55, 0),
    (56, 56),
    (63, 31),
    (64, 32),
    (111, 64),
    (112, 64),
    (119, 112),
    (120, 8),
    (127, 126),
    (128, 127),
    (239, 128),
    (240, 120),
    (255, 127),
    (256, 128),
    (664, 600),
    (66559, 1000),
];

const HEX: [u8; 16] = *b"0123456789abcdef";

// Writes bytes, or gives up what is left of them at a write that takes nothing or fails, as one that a signal interrupts does: nothing ends the program, and
// the stored output tells what is missing.
fn put(rt: &impl Print, bytes: &[u8]) {
    let mut size = 0;
    for _ in 0..bytes.len() {
        if size == bytes.len() {
            break;
        }
        match rt.write_some(&bytes[size..]) {
            Ok(0) | Err(_) => break,
            Ok(more) => size += more,
        }
    }
}

// Prints a digest in hex, a write for each byte, and a line feed.
fn print_digest(rt: &impl Print, digest: &[u8; 64]) {
    for byte in digest {
        let digits = [HEX[usize::from(*byte / 16)], HEX[usize::from(*byte % 16)]];
        put(rt, &digits);
    }
    put(rt, b"\n");
}

// Prints the digest of a message, whole and parted at `at`.
fn print_both(rt: &impl Print, message: &[u8], at: usize)
    requires { at ≤ length message.now }
{
    print_digest(rt, &sha512(message));
    print_digest(rt, &sha512_of_two(&message[..at], &message[at..]));
}

// Prints both digests of the first bytes of a message, for each length and place to part it at.
fn print_lengths(rt: &impl Print, message: &[u8], lengths: &[(usize, usize)])
    requires { list_all (λ p. nat_le p.1 p.0 && nat_le p.0 (length message.now)) lengths.now ≡ true }
{
    for (length, at) in lengths {
        print_both(rt, &message[..*length], *at);
    }
}

fn main(rt: HostRuntime) {
    for (message, at) in EXAMPLES {
        print_both(&rt, message, at);
    }
    print_lengths(&rt, &[b'a'; MOST], &LENGTHS);
}
