// Claims in specs/ and their proofs in proofs/; no code.
#![tactic(auto)]
