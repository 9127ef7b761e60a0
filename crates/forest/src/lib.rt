// A sheet as a forest of fields: definitions and laws in specs/ and proofs/, and no function.
#![tactic(auto)]
