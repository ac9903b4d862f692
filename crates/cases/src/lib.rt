// Cases of document 01, computed by the definitions.
#![tactic(auto)]
