// The proved table of single values: specs/Table.antt states it and proofs/Proved.antt proves it. No function is
// here.
#![tactic(auto)]
