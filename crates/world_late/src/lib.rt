// Late calls: between two steps the calls for different ids and tunings may come in any order, and a later input or tuning replaces an earlier one. No code.
#![tactic(auto)]
