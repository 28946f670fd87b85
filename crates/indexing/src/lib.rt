// What the calls index and point say and leave, as definitions (docs/RULES.md, "Enumerations" and "Order of checks").
// No function is here; the calls are in `points`.
#![tactic(auto)]
