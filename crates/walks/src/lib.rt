// Theorems only: see specs/Lib.antt.
#![tactic(auto)]
