// The schemas of a sheet, as a person reads them: definitions and laws in specs/ and proofs/, and no function.
#![tactic(auto)]
