// The rounds of FIPS 197, section 5.1, over a lent substitution.
ghost use Rattle.std.specs.Prelude.{◌≡◌, ◌+◌, ◌*◌, ◌<◌, get_or};
ghost use Rattle.state.specs.State.{word};
ghost use Rattle.aes.specs.Cipher.{round_key, unkeyed_round, keyed_round, last_round, rounds, cipher};
ghost use Rattle.aes.specs.FourRounds.{four_rounds};

use crate::substitution::Substitution;
use std::array;

// Row r of round key i of a schedule. (That i is below 11, and an index of a word below 44, stands at each of the few
// that take one: a type for an index would be no plainer.)
fn key_row(w: &[u8; 176], i: usize, r: usize) -> [u8; 4]
    requires { (i < 11) × (r < 4) }
    ensures { result ≡ word (λ c. get_or w.now (16 * i + (r + 4 * c)) 0) }
{
    array::from_fn(|c| w[16 * i + (r + 4 * c)])
}

// Round key i of a schedule, as a state, row by row, as in `state`: the check knows nothing of a closure's array.
fn round_key(w: &[u8; 176], i: usize) -> [[u8; 4]; 4]
    requires { i < 11 }
    ensures { result ≡ round_key w.now i }
{
    [
        key_row(w, i, 0),
        key_row(w, i, 1),
        key_row(w, i, 2),
        key_row(w, i, 3),
    ]
}

// What a round does before its key is added.
fn unkeyed(sub: &Substitution, s: [[u8; 4]; 4]) -> [[u8; 4]; 4]
    ensures { result ≡ unkeyed_round s }
{
    state::mix_columns(state::shift_rows(sub.state(s)))
}

// A round.
fn keyed(sub: &Substitution, s: [[u8; 4]; 4], k: [[u8; 4]; 4]) -> [[u8; 4]; 4]
    ensures { result ≡ keyed_round s k }
{
    state::add_round_key(unkeyed(sub, s), k)
}

// The last round has no MixColumns.
fn last(sub: &Substitution, s: [[u8; 4]; 4], k: [[u8; 4]; 4]) -> [[u8; 4]; 4]
    ensures { result ≡ last_round s k }
{
    state::add_round_key(state::shift_rows(sub.state(s)), k)
}

// Rounds 1 to 9, from the state to which round key 0 was added.
fn nine<'a>(sub: &'a Substitution, w: &'a [u8; 176], s0: [[u8; 4]; 4]) -> [[u8; 4]; 4]
    ensures { result ≡ rounds w.now s0 9 }
{
    let mut s = s0;
    for i in 1..10 {
        // by a name of its own: the check does not follow an array assigned straight from a call that takes it
        let next = keyed(sub, s, round_key(w, i));
        s = next;
    }
    s
}

// The cipher E, Figure 5.
pub(crate) fn encrypt<'a>(sub: &'a Substitution, w: &'a [u8; 176], block: [u8; 16]) -> [u8; 16]
    ensures { result ≡ cipher w.now block }
{
    let first = state::add_round_key(state::load(block), round_key(w, 0));
    let ninth = nine(sub, w, first);
    state::store(last(sub, ninth, round_key(w, 10)))
}

// The four-round function G: a key after each of the first three rounds, and none else. (U1, U2 and U3 go one by one,
// as FourRoundsPromise has them.)
pub(crate) fn four(
    sub: &Substitution,
    u1: [u8; 16],
    u2: [u8; 16],
    u3: [u8; 16],
    block: [u8; 16],
) -> [u8; 16]
    ensures { result ≡ four_rounds u1 u2 u3 block }
{
    let a = keyed(sub, state::load(block), state::load(u1));
    let b = keyed(sub, a, state::load(u2));
    let c = keyed(sub, b, state::load(u3));
    state::store(unkeyed(sub, c))
}
