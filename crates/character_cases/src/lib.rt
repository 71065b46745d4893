// The proved cases of document 01, as one joint fact. No code.
#![tactic(auto)]
