// The rows of an accepted source are sound: the laws stand in specs/ and proofs/.
#![tactic(auto)]
