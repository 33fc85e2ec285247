// AES-128 encryption (FIPS 197) and the four-round function of PC-MAC-AES: the plain engine.
//
//     let w = aes::expand_key(key);            // once for a key
//     let c = aes::encrypt_block(&w, block);   // E of each block
//     let g = aes::four_rounds(u1, u2, u3, block);
//
// Each public function builds the substitution once and lends it down; what takes a lent one stays inside
// the crate.
#![tactic(auto)]

mod expand;
mod rounds;
mod substitution;

ghost use Rattle.aes.specs.Promise.{ExpandKeyPromise, EncryptBlockPromise, FourRoundsPromise};

use substitution::Substitution;

// The schedule of a key: eleven round keys of 16 bytes, one after the other.
pub fn expand_key(key: [u8; 16]) -> [u8; 176]
    ensures { ExpandKeyPromise key result }
{
    let sub = Substitution::new();
    expand::expand(&sub, key)
}

// E: the block under a schedule.
pub fn encrypt_block(w: &[u8; 176], block: [u8; 16]) -> [u8; 16]
    ensures { EncryptBlockPromise w.now block result }
{
    let sub = Substitution::new();
    rounds::encrypt(&sub, w, block)
}

// G: the block under U1, U2 and U3.
pub fn four_rounds(u1: [u8; 16], u2: [u8; 16], u3: [u8; 16], block: [u8; 16]) -> [u8; 16]
    ensures { FourRoundsPromise u1 u2 u3 block result }
{
    let sub = Substitution::new();
    rounds::four(&sub, u1, u2, u3, block)
}
