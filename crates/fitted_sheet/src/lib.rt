// The fitted sheet by definition, and what finding on it gives (specs/, proofs/).
#![tactic(auto)]
