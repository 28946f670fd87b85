// The laws of the page, over the definitions of `rules` (docs/RULES.md, "The page", "Books" and "States first"). No
// function and no definition of the rules stands here.
#![tactic(auto)]
