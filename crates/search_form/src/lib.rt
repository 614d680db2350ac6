// What holds of the search form of a filter is stated in specs/ and proved in proofs/. There is no code here.
#![tactic(auto)]
