// The text of the listing as definitions (docs/RULES.md, "Listing program"): numbers, words and lines, with the law
// that digits say their number. No function is here; `text` writes them into a lent buffer.
#![tactic(auto)]
