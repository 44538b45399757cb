// No code: the customer's three demands are stated in specs/ and proved of the drive, and refuted of wrong devices, in proofs/.
#![tactic(auto)]
