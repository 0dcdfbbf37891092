// What each call means. Nothing to run: the crate is its specs/ and proofs/.
#![tactic(auto)]
