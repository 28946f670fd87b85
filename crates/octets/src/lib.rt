// Numbers as bytes, high byte first, as the pairing table and the records have them (docs/RULES.md, "Pairing table"
// and "Quantizing into a record"): specs/ states them and proofs/ proves their laws. No function is here.
#![tactic(auto)]
