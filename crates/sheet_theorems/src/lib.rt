// The theorems about sheets: statements in specs/, proofs in proofs/. No code.
#![tactic(auto)]
