// Document 01 as definitions: no code. What a reader has to believe stands in specs/, the theorems about it in proofs/.

#![tactic(auto)]
