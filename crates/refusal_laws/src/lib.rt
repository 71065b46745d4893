// A refused function of the C interface leaves everything that it was lent. No code.
#![tactic(auto)]
