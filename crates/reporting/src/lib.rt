// What the calls of the report say and leave, and the listing that they make, as definitions (docs/RULES.md, "Listing
// program" and "Order of checks"). No function is here; the calls are in `report`.
#![tactic(auto)]
