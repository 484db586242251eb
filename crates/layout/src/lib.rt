// The layout of campaign texts, in specs/ and proofs/: what a campaign says, its text, and what a text is read as. A text that is
// read in is what is written of it, and what is written is read back.
#![tactic(auto)]
