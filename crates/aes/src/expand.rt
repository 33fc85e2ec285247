// The key expansion of FIPS 197, section 5.2, over a lent substitution.
ghost use Rattle.std.specs.Prelude.{◌≡◌, ◌+◌, ◌<◌, ◌≤◌, length, take, drop, ◌++◌};
ghost use Rattle.laws.specs.Agree.{table};
ghost use Rattle.aes.specs.Schedule.{word_at, rot_word, x_power, rcon, temp, next_word, schedule};

use crate::substitution::Substitution;
use std::array;

// x^0 to x^9, the first bytes of Rcon[1] to Rcon[10].
fn powers() -> [u8; 10]
    ensures { result ≡ table x_power 10 }
{
    [0x01, 0x02, 0x04, 0x08, 0x10, 0x20, 0x40, 0x80, 0x1b, 0x36]
}

// Rcon[i], for i from 1 to 10.
fn round_constant(i: usize) -> [u8; 4]
    requires { (1 ≤ i) × (i < 11) }
    ensures { result ≡ rcon i }
{
    let by_n = powers();
    [by_n[i - 1], 0, 0, 0]
}

// RotWord.
fn rot_word(t: [u8; 4]) -> [u8; 4]
    ensures { result ≡ rot_word t }
{
    [t[1], t[2], t[3], t[0]]
}

// Word i of a schedule.
fn word_at(w: &[u8; 176], i: usize) -> [u8; 4]
    requires { i < 44 }
    ensures { result ≡ word_at w.now i }
{
    array::from_fn(|j| w[4 * i + j])
}

// Stores a word at byte o of a schedule, and nothing else.
fn put_word(w: &mut [u8; 176], o: usize, t: [u8; 4])
    requires { o < 173 }
    ensures { w.new ≡ take o w.old ++ t ++ drop (o + 4) w.old }
{
    w[o..o + 4].copy_from_slice(&t);
}

// What is added to w[i-4] to get w[i], where t is w[i-1].
fn temp(sub: &Substitution, i: usize, t: [u8; 4]) -> [u8; 4]
    requires { (4 ≤ i) × (i < 44) }
    ensures { result ≡ temp i t }
{
    if i % 4 == 0 {
        state::xor_word(sub.word(rot_word(t)), round_constant(i / 4))
    } else {
        t
    }
}

// w[i], from the words before it.
fn next_word<'a>(sub: &'a Substitution, w: &'a [u8; 176], i: usize) -> [u8; 4]
    requires { (4 ≤ i) × (i < 44) }
    ensures { result ≡ next_word w.now i }
{
    state::xor_word(word_at(w, i - 4), temp(sub, i, word_at(w, i - 1)))
}

// Room for a schedule, with the key at its front.
fn begun(key: [u8; 16]) -> [u8; 176]
    ensures { take 16 result ≡ key }
{
    let mut w = [0u8; 176];
    w[..16].copy_from_slice(&key);
    w
}

// KeyExpansion: the key, and forty words one after the other.
pub(crate) fn expand(sub: &Substitution, key: [u8; 16]) -> [u8; 176]
    ensures { result ≡ schedule key }
{
    let mut w = begun(key);
    for i in 4..44 {
        let t = next_word(sub, &w, i);
        put_word(&mut w, 4 * i, t);
    }
    w
}
