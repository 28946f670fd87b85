// Nearest on the shell (docs/RULES.md, "Quantizing into a record"): no point of the shell is nearer to the coefficients
// than the one whose shares `shares` defines. Definitions and the theorem; no function is here.
#![tactic(auto)]
