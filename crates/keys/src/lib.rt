// The key call: order, tag length, K and L to a key set, with the subkeys of PC-MAC-AES (NEC's
// specification, Algorithm 2.1).
//
//     let made = keys::key_call(2, 64, &k, &l)?;         // or why it is refused
//     let u = keys::u_part(&made.keys.subkeys, 2, 1);    // the first part of U_2
//     let x = keys::x_key(&made.keys.subkeys, 1);        // the auxiliary key before U_2
//
// How the subkeys stand in their array is known to the module `subkeys` alone.
#![tactic(auto)]

mod subkeys;

ghost use Rattle.std.specs.Prelude.{◌≡◌, ◌≤◌, Ok};
ghost use Rattle.laws.specs.UpTo.{up_to};
ghost use Rattle.numbers.specs.Told.{number};
ghost use Rattle.pcmac.specs.Limits.{resolved};
ghost use Rattle.keys.specs.Answer.{key_number, done_keys};
ghost use Rattle.keys.specs.Told.{told_keys};
ghost use Rattle.keys.specs.Promise.{NoSetPromise, RefusedPromise, KeyCallPromise};
ghost use Rattle.keys.specs.Promise.{BitsFaultPromise, SetFaultPromise};

use numbers::Refusal;
pub use subkeys::{u_part, x_key};

// What the order and the tag length are where 0 is given, and their highest.
const DEFAULT_ORDER: u8 = 2;

const HIGHEST_ORDER: usize = 5;

const DEFAULT_TAG: u8 = 128;

pub const LONGEST_TAG: usize = 128;

// What tags are made and checked with. Whoever holds a key set holds both keys: round key 0 is K,
// and doubled L gives L.
#[derive(Clone, Copy)]
pub struct KeySet {
    // The order d, 1 to 5; 0 in a set of zeros, which later calls refuse.
    pub order: u8,
    // The tag length in bits, 1 to 128; 0 in a set of zeros.
    pub bits: u8,
    // The schedule of K, for E.
    pub round: [u8; 176],
    // The parts of U_1 to U_5 and the auxiliary keys, reached by `u_part` and `x_key`, whose promises
    // are of one flat array.
    pub subkeys: [u8; 304],
    // mul2(L), for a full last block.
    pub full: [u8; 16],
    // mul2(mul2(L)), for a shorter one.
    pub short: [u8; 16],
}

// What the key call makes: the whole-cipher steps that it took, and the key set.
#[derive(Clone, Copy)]
pub struct Made {
    pub steps: usize,
    pub keys: KeySet,
}

// What the key call makes or why it refuses, as it is told: its number, the steps, and the key set, which is of zeros
// where it refuses.
#[derive(Clone, Copy)]
pub struct KeyAnswer {
    pub number: u8,
    pub steps: usize,
    pub keys: KeySet,
}

impl From<Result<Made, Refusal>> for KeyAnswer {
    ghost from_gives = { λ outcome answer. answer ≡ told_keys outcome };

    fn from(outcome: Result<Made, Refusal>) -> KeyAnswer {
        match outcome {
            Ok(made) => KeyAnswer {
                number: 0,
                steps: made.steps,
                keys: made.keys,
            },
            Err(why) => refused(numbers::told(Err(why))),
        }
    }
}

// The first fault of what the key call was handed.
fn fault(order: usize, bits: usize, k: usize, l: usize) -> Result<(), Refusal>
    ensures { number result ≡ key_number order bits k l }
{
    if order > HIGHEST_ORDER {
        return Err(Refusal::BadOrder);
    }
    if bits > LONGEST_TAG {
        return Err(Refusal::BadTagLength);
    }
    if k != 16 || l != 16 {
        return Err(Refusal::BadSize);
    }
    Ok(())
}

// What is meant by a number where 0 says that none is given.
fn meant(otherwise: u8, given: u8) -> u8
    ensures { result ≡ resolved otherwise given }
{
    if given == 0 { otherwise } else { given }
}

// The set of zeros, which every later call refuses: what stands where no key set was made.
pub fn no_set() -> KeySet
    ensures { NoSetPromise result }
{
    KeySet {
        order: 0,
        bits: 0,
        round: [0; 176],
        subkeys: [0; 304],
        full: [0; 16],
        short: [0; 16],
    }
}

// A refusal, by its number, which may be any, is told with no steps and the set of zeros.
pub fn refused(number: u8) -> KeyAnswer
    ensures { RefusedPromise number result }
{
    KeyAnswer {
        number,
        steps: 0,
        keys: no_set(),
    }
}

// The key set of K and L for an order and a tag length that are meant.
fn done(order: u8, bits: u8, k: [u8; 16], l: [u8; 16]) -> Made
    requires { (1 ≤ order) × (order ≤ 5) }
    ensures { told_keys (Ok result) ≡ done_keys order bits k l }
{
    let round = aes::expand_key(k);
    let taken = subkeys::made(&round, l, order);
    let steps = taken.steps;
    let subkeys = taken.subkeys;
    let full = block::double(l);
    let short = block::double(full);
    Made {
        steps,
        keys: KeySet {
            order,
            bits,
            round,
            subkeys,
            full,
            short,
        },
    }
}

// The key call. Order 0 is read as 2, and tag length 0 as 128. The key set has them so resolved: one
// with 0 in either is refused by every later call.
pub fn key_call<'a>(order: usize, bits: usize, k: &'a [u8], l: &'a [u8]) -> Result<Made, Refusal>
    ensures { KeyCallPromise order bits k.now l.now (told_keys result) }
{
    fault(order, bits, k.len(), l.len())?;
    let d = meant(DEFAULT_ORDER, order as u8);
    let p = meant(DEFAULT_TAG, bits as u8);
    Ok(done(d, p, block::read(k, 0), block::read(l, 0)))
}

// Whether a number is 1 to `most`.
fn is_within(most: usize, n: usize) -> bool
    ensures { result ≡ up_to most n }
{
    (1..=most).contains(&n)
}

// 2: there is no tag of so many bits.
pub fn bits_fault(bits: u8) -> Result<(), Refusal>
    ensures { BitsFaultPromise bits (number result) }
{
    if is_within(LONGEST_TAG, bits as usize) {
        Ok(())
    } else {
        Err(Refusal::BadTagLength)
    }
}

// The first fault of a key set that is handed to a later call: 1, its order; 2, its tag length. No
// other byte of it is judged.
pub fn set_fault(keys: KeySet) -> Result<(), Refusal>
    ensures { SetFaultPromise keys (number result) }
{
    if !is_within(HIGHEST_ORDER, keys.order as usize) {
        return Err(Refusal::BadOrder);
    }
    bits_fault(keys.bits)
}
