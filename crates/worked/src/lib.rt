// No code: what document 01 works through of a depot pair, against the definitions.
#![tactic(auto)]
