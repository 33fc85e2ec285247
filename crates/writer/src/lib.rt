// Shore's half of the frame line: a body is given its tag, and both are written in hexadecimal, as a unit
// aboard is to check them.
//
//     let line = writer::write(keys, &body, &mut space)?;    // &space[..line.length] is the line
#![tactic(auto)]

ghost use Rattle.std.specs.Prelude.{◌≡◌};
ghost use Rattle.numbers.specs.Told.{number};
ghost use Rattle.writer.specs.Line.{write_number};
ghost use Rattle.writer.specs.Told.{told_write};
ghost use Rattle.writer.specs.Promise.{WritePromise};

use frame::LONGEST;
use keys::KeySet;
use numbers::Refusal;
use tag::Counts;

// The least bytes of the space: two characters for each byte of the longest frame, also where the line is
// shorter.
pub const LEAST_ROOM: usize = 510;

// A line that was written: the steps of each kind that its tag took, and how many characters it has.
#[derive(Clone, Copy)]
pub struct FrameLine {
    pub counts: Counts,
    pub length: usize,
}

// What writing a line hands back, as it is told: its number, the steps of each kind that its tag took, and how many
// characters it has, zeros where it refuses.
#[derive(Clone, Copy)]
pub struct Written {
    pub number: u8,
    pub whole: usize,
    pub four: usize,
    pub written: usize,
}

impl From<Result<FrameLine, Refusal>> for Written {
    ghost from_gives = { λ outcome answer. answer ≡ told_write outcome };

    fn from(outcome: Result<FrameLine, Refusal>) -> Written {
        match outcome {
            Ok(line) => Written {
                number: 0,
                whole: line.counts.whole,
                four: line.counts.four,
                written: line.length,
            },
            Err(why) => Written {
                number: numbers::told(Err(why)),
                whole: 0,
                four: 0,
                written: 0,
            },
        }
    }
}

// The first fault of a space of so many bytes and a body of n.
fn fault(keys: KeySet, room: usize, n: usize) -> Result<(), Refusal>
    ensures { number result ≡ write_number keys room n }
{
    keys::set_fault(keys)?;
    if room < LEAST_ROOM {
        return Err(Refusal::BadSize);
    }
    if n == 0 {
        return Err(Refusal::BadBody);
    }
    if n > LONGEST - tag::size(keys.bits) {
        return Err(Refusal::BadBody);
    }
    Ok(())
}

// The line of a body's frame, from the start of a lent space: the body, and behind it its tag. Of a body
// without a fault the tag is made, and there is room for both.
pub fn write<'a>(keys: KeySet, body: &'a [u8], space: &'a mut [u8]) -> Result<FrameLine, Refusal>
    ensures { WritePromise keys body.now space.old (told_write result) space.new }
{
    fault(keys, space.len(), body.len())?;
    let mut made = [0u8; 16];
    let slice = &mut made[..tag::size(keys.bits)];
    let counts = message::tag(keys, body, slice)?;
    let end = hex_line::encode(body, space)?;
    let more = hex_line::encode(slice, &mut space[end..])?;
    Ok(FrameLine {
        counts,
        length: end + more,
    })
}
