// No code: the demands are stated in specs/ and proved in proofs/.

#![tactic(auto)]
