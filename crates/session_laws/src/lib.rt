// What the text of a session stands for, and what the session writes in all, as a function of that. No code.
#![tactic(auto)]
