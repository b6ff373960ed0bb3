// The three demands on the reader, as theorems over the promises of its calls. There is no code here: see specs/ and proofs/.

#![tactic(auto)]
