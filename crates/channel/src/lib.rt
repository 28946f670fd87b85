// The three demands (docs/RULES.md, "Demands"), what is promised of a page that is sent as a whole ("Sending a page"),
// what is told of distances and of both modes ("Reading a place"), and that books are apart ("Books"), as theorems over
// what the calls' contracts say: specs/ states them, a file for each, and proofs/ proves them. No function is here.
#![tactic(auto)]
