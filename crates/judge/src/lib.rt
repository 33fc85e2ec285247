// What is judged of what a call is handed, apart from its key set and its tag slice: the stream, and
// the length of a message.
//
//     judge::stream_fault(2, s)?;     // BadStream where the stream is not well formed for order 2
//     judge::length_fault(0, n)?;     // TooLong where n bytes are too many
#![tactic(auto)]

ghost use Rattle.std.specs.Prelude.{◌≡◌, ◌≤◌, ◌↔◌, IsTrue, EachIndex, slice_index, drop};
ghost use Rattle.laws.specs.Fault.{unless};
ghost use Rattle.numbers.specs.Told.{number, number_of};
ghost use Rattle.chain.specs.Count.{whole_for, four_for};
ghost use Rattle.chain.specs.Stream.{settled};
ghost use Rattle.judge.specs.Stream.{chain_of, held_for, formed};
ghost use Rattle.judge.specs.Promise.{StreamFaultPromise, LengthFaultPromise, EmptyFaultPromise, FirstPromise};

use chain::Chain;
use numbers::Refusal;

// The most bytes that a message may have.
const MESSAGE_LIMIT: usize = 1048576;

// Up to so many bytes no block is known not to be the last, so that the chain value is still zeros.
const FIRST_BLOCK: usize = 16;

// A message of which some bytes are known: what has to be kept of them until the next part comes. A caller
// hands it in, with whatever fields, and the promises judge and name each: so none stands in a type of its own.
#[derive(Clone, Copy)]
pub struct Stream {
    // How many bytes are known.
    pub total: usize,
    // The chain value after the blocks that are known not to be the last.
    pub value: [u8; 16],
    // The bytes after those blocks, and zeros.
    pub held: [u8; 16],
    // How many bytes are held: none at the start, and 1 to 16 afterwards, because a full block may
    // still be the last.
    pub count: usize,
    // Whole-cipher steps taken.
    pub whole: usize,
    // Four-round steps taken.
    pub four: usize,
}

// Its chain.
impl From<Stream> for Chain {
    ghost from_gives = { λ s chain. chain ≡ chain_of s };

    fn from(s: Stream) -> Chain {
        let value = s.value;
        Chain {
            value,
            whole: s.whole,
            four: s.four,
        }
    }
}

// Whether every byte of a block from one on is zero.
fn zero_from(a: [u8; 16], from: usize) -> bool
    ensures { IsTrue result ↔ EachIndex (drop from a) (λ k. slice_index (drop from a) k ≡ 0) }
{
    a.iter().skip(from).all(|b| *b == 0)
}

// Of n bytes, how many blocks are known not to be the last.
fn settled_of(n: usize) -> usize
    ensures { result ≡ settled n }
{
    n.saturating_sub(1) / 16
}

// How many bytes are held of n.
fn held_for(n: usize) -> usize
    ensures { result ≡ held_for n }
{
    n - 16 * settled_of(n)
}

// The whole-cipher steps of n bytes, by the closed formula.
fn wholes_for(d: u8, n: usize) -> usize
    requires { n ≤ 1048576 }
    ensures { (result ≡ whole_for d n) × (result ≤ settled n) }
{
    settled_of(n).div_ceil(d as usize + 1)
}

// The four-round steps of n bytes, by the closed formula.
fn fours_for(d: u8, n: usize) -> usize
    requires { n ≤ 1048576 }
    ensures { result ≡ four_for d n }
{
    settled_of(n) - wholes_for(d, n)
}

// Whether a stream is well formed for an order, field by field.
fn is_formed(d: u8, s: Stream) -> bool
    ensures { result ≡ formed d s }
{
    s.total <= MESSAGE_LIMIT
        && s.count == held_for(s.total)
        && zero_from(s.held, s.count)
        && s.whole == wholes_for(d, s.total)
        && s.four == fours_for(d, s.total)
        && (s.total > FIRST_BLOCK || zero_from(s.value, 0))
}

// Nothing is refused where the test holds.
fn unless(holds: bool, why: Refusal) -> Result<(), Refusal>
    ensures { number result ≡ unless holds (number_of why) }
{
    if holds { Ok(()) } else { Err(why) }
}

// 4: the stream is not well formed for the order.
pub fn stream_fault(order: u8, s: Stream) -> Result<(), Refusal>
    ensures { StreamFaultPromise order s (number result) }
{
    unless(is_formed(order, s), Refusal::BadStream)
}

// 5: so many bytes and n more are together more than a message may have.
pub fn length_fault(total: usize, n: usize) -> Result<(), Refusal>
    ensures { LengthFaultPromise total n (number result) }
{
    unless(total.saturating_add(n) <= MESSAGE_LIMIT, Refusal::TooLong)
}

// 6: there are no bytes, and an empty message is not allowed.
pub fn empty_fault(allowed: bool, n: usize) -> Result<(), Refusal>
    ensures { EmptyFaultPromise allowed n (number result) }
{
    unless(allowed || n >= 1, Refusal::NoBytes)
}

// The first of two numbers of faults, in the order in which they are judged: what `?` does with the faults themselves.
pub fn first(a: u8, b: u8) -> u8
    ensures { FirstPromise a b result }
{
    if a != 0 { a } else { b }
}
