// Hexadecimal, both ways: two of the characters 0-9 and A-F for each byte, high half first. A line
// between shore and ship has at most 510 of them.
//
//     let mut space = [0u8; 255];
//     let end = hex_line::decode(&line, &mut space)?;
//     let bytes = &space[..end];
//     let mut text = [0u8; 510];
//     let back = hex_line::encode(bytes, &mut text)?;    // the line again: &text[..back]
//
// The characters may be those of a key. So in the source of decode and encode no branch and no address
// depends on one, but for whether all of a line are digits. (Nothing is proved of time.)
#![tactic(auto)]

ghost use Rattle.std.specs.Prelude.{◌≡◌, true, ◌++◌, ◌+◌, ◌*◌, ◌/◌, ◌%◌, ◌≤◌, ◌<◌, length, drop};
ghost use Rattle.hex_line.specs.Digit.{is_digit, value_of, character_of};
ghost use Rattle.hex_line.specs.Inner.{strange};
ghost use Rattle.hex_line.specs.Line.{is_hex, decoded, encoded};
ghost use Rattle.hex_line.specs.Promise.{DigitPromise, DecodePromise, EncodePromise};
ghost use Rattle.hex_line.specs.Told.{told_line};

use numbers::Refusal;

// The most characters of a line that is decoded.
const LONGEST: usize = 510;

// The least bytes of the space for it, which are the most that it decodes to.
const SPACE: usize = 255;

// What decoding a line or encoding bytes hands back, as it is told: its number, and how many bytes or characters it
// wrote, none where it refuses.
#[derive(Clone, Copy)]
pub struct LineAnswer {
    pub number: u8,
    pub written: usize,
}

impl From<Result<usize, Refusal>> for LineAnswer {
    ghost from_gives = { λ outcome answer. answer ≡ told_line outcome };

    fn from(outcome: Result<usize, Refusal>) -> LineAnswer {
        match outcome {
            Ok(written) => LineAnswer { number: 0, written },
            Err(why) => LineAnswer {
                number: numbers::told(Err(why)),
                written: 0,
            },
        }
    }
}

// The value of a character that is a digit: the low half of 0-9 is its value, and that of A-F, which
// stand behind 64, falls nine short.
fn value(c: u8) -> u8
    ensures { (result < 16) × (is_digit c ≡ true → result ≡ value_of c) }
{
    (c % 16 + c / 64 * 9) % 16
}

// Whether a character is neither one of 0-9 nor one of A-F, by `|` and `&`, which do not branch. Lower
// case is none of them.
fn is_strange(c: u8) -> bool
    ensures { result ≡ strange c }
{
    ((c < b'0') | (c > b'9')) & ((c < b'A') | (c > b'F'))
}

// What a character stands for: 0-9 and A-F, and no other.
pub fn digit(c: u8) -> Option<u8>
    ensures { DigitPromise c result }
{
    if is_strange(c) { None } else { Some(value(c)) }
}

// Whether a line is pairs of digits. Its faults are gathered over all of it, and tested once.
fn is_hex(line: &[u8]) -> bool
    ensures { result ≡ is_hex line.now }
{
    let mut faulty = line.len() % 2 != 0;
    for c in line {
        faulty |= is_strange(*c);
    }
    !faulty
}

// The byte of two characters that are digits, high half first.
fn byte(high: u8, low: u8) -> u8
    ensures { is_digit high ≡ true → is_digit low ≡ true → result ≡ 16 * value_of high + value_of low }
{
    16 * value(high) + value(low)
}

// The bytes of a line that is pairs of digits, at the front of a space.
fn fill<'a>(line: &'a [u8], space: &'a mut [u8])
    requires { (is_hex line.now ≡ true) × (length line.now / 2 ≤ length space.old) }
    ensures { space.new ≡ decoded line.now ++ drop (length line.now / 2) space.old }
{
    // by an index: of a slice that an adapter of iter_mut went through the check knows nothing, so
    // with chunks_exact and zip the proof does not close
    for i in 0..line.len() / 2 {
        space[i] = byte(line[2 * i], line[2 * i + 1]);
    }
}

// Decodes a line into a lent space, and hands back how many bytes it has: they are laid from the start of
// the space, and none after them is touched. Nothing is written before all characters are judged.
pub fn decode<'a>(line: &'a [u8], space: &'a mut [u8]) -> Result<usize, Refusal>
    ensures { DecodePromise line.now space.old (told_line result) space.new }
{
    if space.len() < SPACE {
        return Err(Refusal::BadSize);
    }
    if line.len() > LONGEST {
        return Err(Refusal::BadLength);
    }
    if !is_hex(line) {
        return Err(Refusal::NotHex);
    }
    fill(line, space);
    Ok(line.len() / 2)
}

// The character of a value: the letters stand seven behind the digits.
fn character(v: u8) -> u8
    requires { v < 16 }
    ensures { result ≡ character_of v }
{
    b'0' + v + v / 10 * 7
}

// The characters of a byte's high half and of its low half.
fn high(b: u8) -> u8
    ensures { result ≡ character_of (b / 16) }
{
    character(b / 16)
}

fn low(b: u8) -> u8
    ensures { result ≡ character_of (b % 16) }
{
    character(b % 16)
}

// The line of bytes, at the front of a space.
fn spell<'a>(bytes: &'a [u8], space: &'a mut [u8])
    requires { 2 * length bytes.now ≤ length space.old }
    ensures { space.new ≡ encoded bytes.now ++ drop (2 * length bytes.now) space.old }
{
    // chunks_exact_mut would lose the slice, as in `fill`
    for (i, b) in bytes.iter().enumerate() {
        space[2 * i] = high(*b);
        space[2 * i + 1] = low(*b);
    }
}

// Encodes bytes into a lent space, and hands back how many characters their line has: it is laid from the
// start of the space, and no character after it is touched.
pub fn encode<'a>(bytes: &'a [u8], space: &'a mut [u8]) -> Result<usize, Refusal>
    ensures { EncodePromise bytes.now space.old (told_line result) space.new }
{
    // half of the space, since twice the bytes might be more than a number holds
    if bytes.len() > space.len() / 2 {
        return Err(Refusal::BadSize);
    }
    spell(bytes, space);
    Ok(2 * bytes.len())
}
