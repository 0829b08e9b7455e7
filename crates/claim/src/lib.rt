// No code: the plain machine and the claim about every list of calls stand in specs/, and their proof in proofs/.
#![tactic(auto)]
