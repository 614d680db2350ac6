// What the reading of JSON texts comes to is proved in proofs/: laws that join the definitions. There is no code here.
#![tactic(auto)]
