// PC-MAC-AES over a message that comes in parts, cut anywhere, some of them perhaps empty. Streams go
// by value: a call that refuses leaves the caller's as it stood, and so does closing, so that it may be
// closed again, and parts may follow.
//
//     let s = stream::start();
//     let s = stream::add(keys, s, &part)?;               // s has the part
//     let counts = stream::close(keys, s, &mut space)?;   // the space has the tag
//     let checked = stream::check(keys, s, &received);    // its outcome is TagDiffers where the tag differs
#![tactic(auto)]

ghost use Rattle.std.specs.Prelude.{◌≡◌, ◌≤◌};
ghost use Rattle.numbers.specs.Told.{number};
ghost use Rattle.engine.specs.Engine.{chain_step};
ghost use Rattle.tag.specs.Inner.{Sealed};
ghost use Rattle.tag.specs.Told.{told_made, told_checked};
ghost use Rattle.stream.specs.Answer.{add_number, added_to, close_number, closed};
ghost use Rattle.stream.specs.Inner.{Extends, Past, taken_both, Closable};
ghost use Rattle.stream.specs.Told.{told_added};
ghost use Rattle.stream.specs.Promise.{StartPromise, AddPromise, ClosePromise, CheckPromise};

use chain::Chain;
pub use judge::Stream;
use keys::KeySet;
use numbers::Refusal;
pub use tag::{Checked, Counts, TagAnswer};

// What adding to a stream hands back, as it is told: its number, and the stream, which is the one that was given where it
// refuses.
#[derive(Clone, Copy)]
pub struct Added {
    pub number: u8,
    pub stream: Stream,
}

impl From<(Stream, Result<Stream, Refusal>)> for Added {
    ghost from_gives = { λ added answer. answer ≡ told_added added.0 added.1 };

    fn from(added: (Stream, Result<Stream, Refusal>)) -> Added {
        let (given, outcome) = added;
        match outcome {
            Ok(stream) => Added { number: 0, stream },
            Err(why) => Added {
                number: numbers::told(Err(why)),
                stream: given,
            },
        }
    }
}

// A stream of no bytes.
pub fn start() -> Stream
    ensures { StartPromise result }
{
    Stream {
        total: 0,
        value: [0; 16],
        held: [0; 16],
        count: 0,
        whole: 0,
        four: 0,
    }
}

// The first fault where a part of n bytes is added.
fn add_fault(keys: KeySet, s: Stream, n: usize) -> Result<(), Refusal>
    ensures { number result ≡ add_number keys s n }
{
    keys::set_fault(keys)?;
    judge::stream_fault(keys.order, s)?;
    judge::length_fault(s.total, n)
}

// The chain after the held block, filled up, and then the whole blocks of a part, taken where they
// lie.
fn taken(keys: &KeySet, done: usize, c: Chain, first: [u8; 16], part: &[u8]) -> Chain
    requires { (c.whole ≤ 1048576) × (c.four ≤ 1048576) × (done ≤ 1048576) }
    ensures { result ≡ taken_both keys.now.order (chain_step keys.now.round keys.now.subkeys) done c first part.now }
{
    let next = engine::absorb(keys.order, &keys.round, &keys.subkeys, done, c, &first);
    engine::absorb(keys.order, &keys.round, &keys.subkeys, done + 1, next, part)
}

// The stream with a part that makes more than a block with the bytes held: the part fills up the
// held block, of its own blocks all but the last are taken, and the last, of 1 to 16 bytes, is held.
fn past(keys: &KeySet, s: Stream, first: [u8; 16], part: &[u8]) -> Stream
    requires { Past keys.now.order s first part.now }
    ensures { result ≡ added_to keys.now.order (chain_step keys.now.round keys.now.subkeys) s part.now }
{
    let n = s.count;
    let room = 16 - n;
    let end = room + 16 * ((part.len() - room - 1) / 16);
    let done = (s.total - n) / 16;
    let c = taken(keys, done, Chain::from(s), first, &part[room..end]);
    let value = c.value;
    Stream {
        total: s.total + part.len(),
        value,
        held: block::read(part, end),
        count: part.len() - end,
        whole: c.whole,
        four: c.four,
    }
}

// The stream with a part more, which is not too long for it.
fn extended(keys: &KeySet, s: Stream, part: &[u8]) -> Stream
    requires { Extends keys.now.order s part.now }
    ensures { result ≡ added_to keys.now.order (chain_step keys.now.round keys.now.subkeys) s part.now }
{
    let n = s.count;
    let first = block::join(s.held, n, part);
    if part.len() > 16 - n {
        return past(keys, s, first, part);
    }
    // No more than a block, which may be the last: it is held, also where it is full.
    Stream {
        total: s.total + part.len(),
        held: first,
        count: n + part.len(),
        ..s
    }
}

// A part behind what the stream has taken.
pub fn add(keys: KeySet, s: Stream, part: &[u8]) -> Result<Stream, Refusal>
    ensures { AddPromise keys s part.now (told_added s result) }
{
    add_fault(keys, s, part.len())?;
    Ok(extended(&keys, s, part))
}

// The first fault where a stream is closed into a tag slice of n bytes, or checked against one. A
// message of PC-MAC-AES may not be empty.
fn close_fault(keys: KeySet, s: Stream, n: usize) -> Result<(), Refusal>
    ensures { number result ≡ close_number keys s n }
{
    keys::set_fault(keys)?;
    tag::size_fault(keys.bits, n)?;
    judge::stream_fault(keys.order, s)?;
    judge::empty_fault(false, s.total)
}

// The chain after the closing step, the bytes held being the last block.
fn sealed(keys: KeySet, s: Stream) -> Chain
    requires { Closable keys s }
    ensures { Sealed keys.bits (closed keys s) result }
{
    engine::seal(
        &keys.round,
        keys.full,
        keys.short,
        Chain::from(s),
        s.held,
        s.count,
    )
}

// The tag of what the stream has taken, into a lent slice.
pub fn close(keys: KeySet, s: Stream, slice: &mut [u8]) -> Result<Counts, Refusal>
    ensures { ClosePromise keys s slice.old (told_made result) slice.new }
{
    close_fault(keys, s, slice.len())?;
    tag::write(sealed(keys, s), keys.bits, slice)
}

// The verdict on a received tag for what the stream has taken.
pub fn check(keys: KeySet, s: Stream, received: &[u8]) -> Checked
    ensures { CheckPromise keys s received.now (told_checked result) }
{
    match close_fault(keys, s, received.len()) {
        Ok(()) => tag::compare(sealed(keys, s), keys.bits, received),
        Err(why) => tag::unchecked(why),
    }
}
