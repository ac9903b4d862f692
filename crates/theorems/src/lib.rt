// The theorems about resolution and formatting: statements in specs/, proofs in proofs/. No code.
#![tactic(auto)]
