// The standard streams of a program, and what it says of a read or a write that failed.
ghost use Rattle.std.specs.Prelude.{◌≤◌, length};

use std::io;
use std::io::{Error, ErrorKind, Stderr, Stdin, Stdout, Write};

// The streams, and the name under which is said on the third what failed at the others.
#[derive(Clone, Copy)]
pub struct Streams<'a> {
    pub input: Stdin,
    pub output: Stdout,
    pub errors: Stderr,
    pub name: &'a [u8],
}

impl Streams<'_> {
    // Writes all of the bytes, or fails at the first write that takes nothing or fails. std's own `write_all`
    // would make one that was interrupted again; here it counts as one that failed. Where there is nothing to
    // write it makes no call.
    pub(crate) fn write_all(self, bytes: &[u8]) -> io::Result<()> {
        let mut to = self.output;
        let mut rest = bytes;
        while !rest.is_empty() {
            let n = to.write(rest)?;
            if n == 0 {
                return Err(Error::from(ErrorKind::WriteZero));
            }
            rest = &rest[n..];
        }
        Ok(())
    }

    // Says under the program's name what failed, and the system's words for why.
    pub(crate) fn complain(self, what: &[u8], why: Error) {
        let mut space = [0; 128];
        self.say(self.name);
        self.say(what);
        self.say(words(why, &mut space));
        self.say(b"\n");
    }

    // Says something on standard error. Where that fails there is nowhere left to say so.
    fn say(self, bytes: &[u8]) {
        let mut to = self.errors;
        let _ = to.write_all(bytes);
    }
}

// The system's words for an error, in a space. Behind them std writes the error's number, " (os error 9)",
// which goes unsaid.
fn words(why: Error, space: &mut [u8; 128]) -> &[u8]
    ensures { length result.now ≤ 128 }
{
    let mut rest = &mut space[..];
    let _ = write!(rest, "{why}");
    let left = rest.len();
    let text = &space[..128usize.saturating_sub(left)];
    match text.iter().rposition(|b| *b == b'(') {
        Some(at) => &text[..at.saturating_sub(1)],
        None => text,
    }
}
