// A lent buffer that is written one element after the other: what it holds on the way and in the end; and pieces that
// are joined. Both are definitions with their laws. No function is here.
#![tactic(auto)]
