// A run of coefficients for a whole page (docs/RULES.md, "Sending a page"): where each place's coordinates stand in a
// run, and what the call send says and leaves, as definitions with their laws. No function is here.
#![tactic(auto)]
