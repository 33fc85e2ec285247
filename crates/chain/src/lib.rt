// The chain of Algorithm 2.2: its value, and the steps that it has taken. What a step is stands above;
// specs/ has the walk over the blocks, for any order and any step, proofs/ its laws.
#![tactic(auto)]

#[derive(Clone, Copy)]
pub struct Chain {
    // The chain value s.
    pub value: [u8; 16],
    // Whole-cipher steps taken.
    pub whole: usize,
    // Four-round steps taken.
    pub four: usize,
}
