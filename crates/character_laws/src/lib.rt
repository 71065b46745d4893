// Laws of the tick and the move, and of the way of a character into a record and back. No code.
#![tactic(auto)]
