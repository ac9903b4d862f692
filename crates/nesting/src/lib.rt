// The theorems about isolation marks: statements in specs/, proofs in proofs/. No code.
#![tactic(auto)]
