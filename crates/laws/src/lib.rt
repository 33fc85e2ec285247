// General laws that the other crates' proofs cite. There is no code here: specs/ has the notions,
// proofs/ the laws about them.
#![tactic(auto)]
