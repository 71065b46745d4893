// Solo heats: what other players do changes nothing of one id. No code.
#![tactic(auto)]
