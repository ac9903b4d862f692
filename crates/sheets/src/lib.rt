// The definition of a sheet's formatting, and sheets by computing. There is no code here.
#![tactic(auto)]
