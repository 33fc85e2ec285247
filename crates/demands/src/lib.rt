// The three demands, stated over the public promises and the documents' definitions, and proved. There
// is no code here: specs/ has the statements, proofs/ what shows them.
#![tactic(auto)]
