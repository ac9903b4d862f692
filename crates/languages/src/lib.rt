// The sentences of the four languages, as bytes: they meet the premises of the theorems about isolation marks. No code.
#![tactic(auto)]
