// The definition of resolution and of formatting, and document 01's cases held to it: specs/. No code.
#![tactic(auto)]
