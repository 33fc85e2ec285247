// What the sending program says to a body line: the frame line of the body and a line feed. Where the line
// or its body is refused, a line feed alone.
//
//     let written = outgoing::tell(keys, &line, &mut space);    // the text is &space[..written]
#![tactic(auto)]

ghost use Rattle.std.specs.Prelude.{◌≤◌, length};
ghost use Rattle.lines.specs.Moves.{Wrote};
ghost use Rattle.writer.specs.Line.{least_room};
ghost use Rattle.outgoing.specs.Text.{sent_line};
ghost use Rattle.outgoing.specs.Promise.{TellPromise};

use keys::KeySet;
use lines::LINE_FEED;

// The most bytes of a text: the longest frame line, and its line feed.
pub const MOST_TEXT: usize = 511;

// Writes the frame line of a body line's body at the front of a lent space: how long it is. The line is
// decoded first, and only a decoded line has a body.
fn lay<'a>(keys: KeySet, line: &'a [u8], space: &'a mut [u8]) -> usize
    requires { least_room ≤ length space.old }
    ensures { Wrote (sent_line keys line.now) space.old 0 result space.new }
{
    let mut body = [0u8; 255];
    let Ok(end) = hex_line::decode(line, &mut body) else {
        return 0;
    };
    match writer::write(keys, &body[..end], space) {
        Ok(sent) => sent.length,
        Err(_) => 0,
    }
}

// Writes the text at a body line at the front of a lent space, and hands back how long it is; where the
// space has not room for the longest, nothing.
pub fn tell<'a>(keys: KeySet, line: &'a [u8], space: &'a mut [u8]) -> usize
    ensures { TellPromise keys line.now space.old result space.new }
{
    if space.len() < MOST_TEXT {
        return 0;
    }
    let end = lay(keys, line, space);
    space[end] = LINE_FEED;
    end + 1
}
