// No code: the demands as statements over what the store's calls promise.
#![tactic(auto)]
