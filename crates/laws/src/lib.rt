// Laws in proofs/; no code.
#![tactic(auto)]
