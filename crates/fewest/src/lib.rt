// No code: how few vectors a first step and a set passed for k = n can have is stated in specs/ and proved in proofs/.

#![tactic(auto)]
