// What filters of both forms do is stated in specs/ and proved in proofs/. There is no code here.
#![tactic(auto)]
