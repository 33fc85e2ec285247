// PC-MAC-AES over a whole message at once: its tag, and the check of a received one.
//
//     let counts = message::tag(keys, &text, &mut space)?;    // the space has the tag
//     let checked = message::verify(keys, &text, &received);  // its outcome is TagDiffers where the tag differs
#![tactic(auto)]

ghost use Rattle.std.specs.Prelude.{◌≡◌, ◌≤◌, length};
ghost use Rattle.numbers.specs.Told.{number};
ghost use Rattle.tag.specs.Inner.{Sealed};
ghost use Rattle.tag.specs.Told.{told_made, told_checked};
ghost use Rattle.message.specs.Answer.{message_number, tagged};
ghost use Rattle.message.specs.Promise.{TagPromise, VerifyPromise};

use chain::Chain;
use keys::KeySet;
use numbers::Refusal;
pub use tag::{Checked, Counts, TagAnswer};

// The first fault of a message of m bytes and a tag slice of n. A message of PC-MAC-AES may not be
// empty.
fn fault(keys: KeySet, m: usize, n: usize) -> Result<(), Refusal>
    ensures { number result ≡ message_number keys m n }
{
    keys::set_fault(keys)?;
    tag::size_fault(keys.bits, n)?;
    judge::length_fault(0, m)?;
    judge::empty_fault(false, m)
}

// The chain after the closing step: all blocks but the last are taken where they lie, and then the
// last.
fn sealed(keys: KeySet, message: &[u8]) -> Chain
    requires { (1 ≤ length message.now) × (length message.now ≤ 1048576) }
    ensures { Sealed keys.bits (tagged keys message.now) result }
{
    let end = 16 * ((message.len() - 1) / 16);
    let begun = Chain {
        value: [0; 16],
        whole: 0,
        four: 0,
    };
    let c = engine::absorb(
        keys.order,
        &keys.round,
        &keys.subkeys,
        0,
        begun,
        &message[..end],
    );
    let last = block::read(message, end);
    engine::seal(
        &keys.round,
        keys.full,
        keys.short,
        c,
        last,
        message.len() - end,
    )
}

// The tag of a message, into a lent slice.
pub fn tag<'a>(keys: KeySet, message: &'a [u8], slice: &'a mut [u8]) -> Result<Counts, Refusal>
    ensures { TagPromise keys message.now slice.old (told_made result) slice.new }
{
    fault(keys, message.len(), slice.len())?;
    tag::write(sealed(keys, message), keys.bits, slice)
}

// The verdict on a received tag for a message. Out of line, so that what a caller makes of the outcome does not go
// back into the comparison: then a wrong tag takes as many instructions as the right one (bench/same).
#[inline(never)]
pub fn verify<'a>(keys: KeySet, message: &'a [u8], received: &'a [u8]) -> Checked
    ensures { VerifyPromise keys message.now received.now (told_checked result) }
{
    match fault(keys, message.len(), received.len()) {
        Ok(()) => tag::compare(sealed(keys, message), keys.bits, received),
        Err(why) => tag::unchecked(why),
    }
}
