// Why a call refuses, for every crate above: the first fault, with the number by which C, the programs and the
// questions of probe tell it. 0 is told where nothing is refused.
//
//     pub fn key_call(..) -> Result<Made, Refusal>
//     let number = numbers::told(outcome);    // 0, or the number of the refusal
#![tactic(auto)]

ghost use Rattle.numbers.specs.Promise.{ToldPromise};

// The first fault that applies. The number of each stands in the outline's table, and 0 in it is no fault.
#[derive(Clone, Copy, Debug, PartialEq, Eq)]
pub enum Refusal {
    // The order is above 5, or 0 in a key set.
    BadOrder = 1,
    // The tag length is above 128 bits, or 0 in a key set.
    BadTagLength = 2,
    // K or L is not 16 bytes; a tag slice has not just the bytes of a tag; the space for a decoded line is
    // under 255 bytes, that for an encoded one under two characters a byte, or that for a frame line under
    // 510.
    BadSize = 3,
    // The stream is not well formed.
    BadStream = 4,
    // The message is above 1,048,576 bytes.
    TooLong = 5,
    // There are no bytes.
    NoBytes = 6,
    // The tag differs.
    TagDiffers = 7,
    // A line is above 510 characters; a frame is above 255 bytes or has no body byte before its tag; a key
    // line is not 68 characters.
    BadLength = 8,
    // An odd number of characters, or one that is not 0-9 or A-F.
    NotHex = 9,
    // A body is empty, or it and its tag together are above 255 bytes.
    BadBody = 10,
}

// The number that is told of an outcome: 0 where it is no refusal. Out of line, so that it stays a choice of two
// values and becomes no branch of the caller's: then a wrong tag takes as many instructions as the right one
// (bench/same).
#[inline(never)]
pub fn told(outcome: Result<(), Refusal>) -> u8
    ensures { ToldPromise outcome result }
{
    match outcome {
        Ok(()) => 0,
        Err(why) => why as u8,
    }
}
