// Lines: the characters of a line as they come, the bytes that they stand for, and bytes as characters.
ghost use Rattle.std.specs.Prelude.{◌<◌, ◌≤◌, IfSome};

// The file descriptor of standard output.
const STDOUT: i32 = 1;

// The characters of a line, as many as there is room for: one more than a question may have, so that a line
// that is too long is not pairs. (No `Vec`: the memory is fixed.)
#[derive(Drop)]
pub(crate) struct Line {
    chars: [u8; 16385],
    count: usize,
    ghost fits: { count ≤ 16385 },
}

impl Line {
    // A line that is begun.
    pub(crate) fn new() -> Line {
        Line {
            chars: [0u8; 16385],
            count: 0,
        }
    }

    pub(crate) fn is_empty(&self) -> bool {
        self.count == 0
    }

    // One more character, passed over where there is no room.
    pub(crate) fn put(&mut self, c: u8) {
        if self.count < self.chars.len() {
            self.chars[self.count] = c;
            self.count += 1;
        }
    }

    pub(crate) fn clear(&mut self) {
        self.count = 0;
    }

    // The bytes that the line stands for, if it is pairs of digits.
    pub(crate) fn bytes<'a>(&self, into: &'a mut [u8; 8192]) -> Option<&'a [u8]> {
        let (pairs, left) = self.chars[..self.count].as_chunks::<2>();
        if !left.is_empty() {
            return None;
        }
        let bytes = into.get_mut(..pairs.len())?;
        for (byte, [high, low]) in bytes.iter_mut().zip(pairs) {
            *byte = 16 * value(*high)? + value(*low)?;
        }
        Some(bytes)
    }
}

// The value of a digit, 0-9 or A-F. Lower case is none here, so this is not `to_digit`; nor is it `hex_line::digit`, which
// decode rests on: this program may not read or write by the calls that it questions.
fn value(digit: u8) -> Option<u8>
    ensures { IfSome result (λ v. v < 16) }
{
    match digit {
        b'0'..=b'9' => Some(digit - b'0'),
        b'A'..=b'F' => Some(digit - b'A' + 10),
        _ => None,
    }
}

// The digit of a number below 16.
fn digit(half: u8) -> u8
    requires { half < 16 }
{
    if half < 10 {
        b'0' + half
    } else {
        b'A' - 10 + half
    }
}

// The characters of an answer, and how many there are so far. There is room for the longest: a length, 4,096 bytes and a
// line feed; it is lent to each question. (Not spelt by `hex_line::encode`, which is questioned here, nor by a Display of
// each byte, which takes some 220 instructions for it.)
#[derive(Drop)]
pub(crate) struct Text {
    chars: [u8; 8209],
    count: usize,
    ghost fits: { count ≤ 8209 },
}

impl Text {
    pub(crate) fn new() -> Text {
        Text {
            chars: [0u8; 8209],
            count: 0,
        }
    }

    // Bytes behind what is there, as pairs of digits; those for which there is no room are passed over.
    pub(crate) fn bytes(&mut self, bytes: &[u8]) {
        let (pairs, _) = self.chars[self.count..].as_chunks_mut::<2>();
        let more = 2 * pairs.len().min(bytes.len());
        for (pair, byte) in pairs.iter_mut().zip(bytes) {
            *pair = [digit(*byte / 16), digit(*byte % 16)];
        }
        self.count += more;
    }

    // A byte.
    pub(crate) fn byte(&mut self, byte: u8) {
        self.bytes(&[byte]);
    }

    // A number, in eight bytes.
    pub(crate) fn number(&mut self, n: usize) {
        self.bytes(&n.to_be_bytes());
    }

    // Writes the answer on a line, in one write: up to the 4,096 bytes that a pipe takes at once it goes out whole, or not at
    // all. That it cannot be written changes nothing for the next one, which is begun.
    pub(crate) fn write(&mut self) {
        if self.count < self.chars.len() {
            self.chars[self.count] = b'\n';
            self.count += 1;
        }
        io::write_all(STDOUT, &self.chars[..self.count]);
        self.count = 0;
    }
}

// What a line that is no question is answered by.
pub(crate) fn write_unknown() {
    io::write_all(STDOUT, b"?\n");
}
