// PC-MAC-AES as NEC's specification defines it. There is no code here: specs/ has Algorithms 2.1 to 2.3
// over FIPS 197 and the figures that are proved of them, proofs/ has laws about them.
#![tactic(auto)]
