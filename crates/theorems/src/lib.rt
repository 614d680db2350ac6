// The theorems are in proofs/: laws that join the definitions. There is no code here.
#![tactic(auto)]
