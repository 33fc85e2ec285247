// Lines of hexadecimal digits in and out.
ghost use Rattle.std.specs.Prelude.{◌<◌, IfSome};

// The file descriptor of standard output. (Input and output go by the toolchain's `io`, whose proofs rest on `read` and
// `write` of the C library alone; those of std's streams rest on its errors too.)
const STDOUT: i32 = 1;

// A line that was read: its letter, as it stands there, and its sixteen bytes.
#[derive(Clone, Copy)]
pub struct Line {
    pub letter: u8,
    pub bytes: [u8; 16],
}

// The value of a hexadecimal digit. Capitals are none here, so this is not `to_digit`.
fn value(digit: u8) -> Option<u8>
    ensures { IfSome result (λ v. v < 16) }
{
    match digit {
        b'0'..=b'9' => Some(digit - b'0'),
        b'a'..=b'f' => Some(digit - b'a' + 10),
        _ => None,
    }
}

// What the line says, if all of its digits are digits. Its last character is passed over.
pub(crate) fn parsed(text: [u8; 34]) -> Option<Line> {
    let mut bytes = [0u8; 16];
    let (pairs, _) = text[1..].as_chunks::<2>();
    for (byte, [high, low]) in bytes.iter_mut().zip(pairs) {
        *byte = 16 * value(*high)? + value(*low)?;
    }
    Some(Line {
        letter: text[0],
        bytes,
    })
}

// The digit of a number below 16.
fn digit(half: u8) -> u8
    requires { half < 16 }
{
    if half < 10 {
        b'0' + half
    } else {
        b'a' - 10 + half
    }
}

// Sixteen bytes at most in hexadecimal, on a line, in one write: spelt here, since a Display of each byte takes some 220
// instructions for it. That a line cannot be written changes nothing for the next one.
pub(crate) fn write(bytes: &[u8]) {
    let mut text = [b'\n'; 33];
    let (pairs, _) = text.as_chunks_mut::<2>();
    for (pair, byte) in pairs.iter_mut().zip(bytes) {
        *pair = [digit(*byte / 16), digit(*byte % 16)];
    }
    io::write_all(STDOUT, &text[..2 * bytes.len().min(16) + 1]);
}

// What a line that is no question is answered by.
pub(crate) fn write_unknown() {
    io::write_all(STDOUT, b"?\n");
}
