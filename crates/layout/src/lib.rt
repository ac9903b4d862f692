// The byte layouts: the decoders of `records` are exactly the inverses of its encoders. specs/ says what that means, proofs/Theorems.antt that it holds.
#![tactic(auto)]
