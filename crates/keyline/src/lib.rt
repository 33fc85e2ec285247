// The key line: order, tag length in bits, K and L, in hexadecimal, 68 characters. It is the first line
// that the checking program reads.
//
//     let made = keyline::read(&line)?;    // or why the key call refuses it, or that it is no key line
#![tactic(auto)]

ghost use Rattle.std.specs.Prelude.{◌≡◌};
ghost use Rattle.keys.specs.Told.{told_keys};
ghost use Rattle.keyline.specs.KeyLine.{said_keys};
ghost use Rattle.keyline.specs.Promise.{ReadPromise};

use keys::Made;
use numbers::Refusal;

// A key line has this many characters: two for the order, two for the tag length, 32 for each key.
const LENGTH: usize = 68;

// Where K and L stand among its bytes, behind the order and the tag length.
const K_AT: usize = 2;

const L_AT: usize = 18;

// The key call on what the bytes of a key line say. Order 00 and tag length 00 are no refusals: the
// key call says what they mean.
fn said(bytes: [u8; 255]) -> Result<Made, Refusal>
    ensures { told_keys result ≡ said_keys bytes }
{
    let k = block::read(&bytes, K_AT);
    let l = block::read(&bytes, L_AT);
    keys::key_call(bytes[0] as usize, bytes[1] as usize, &k, &l)
}

// The key set of a key line.
pub fn read(line: &[u8]) -> Result<Made, Refusal>
    ensures { ReadPromise line.now (told_keys result) }
{
    if line.len() != LENGTH {
        return Err(Refusal::BadLength);
    }
    let mut space = [0u8; 255];
    hex_line::decode(line, &mut space)?;
    said(space)
}
