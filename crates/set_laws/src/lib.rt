// Laws in proofs/ of written sets, as the rules of sets and of flow use them; no code.
#![tactic(auto)]
