// Laws of calls on a world, each a sentence of the customer that no contract states: refusal 9, deadly tiles, records, the hold, the order of a step and its start. No code.
#![tactic(auto)]
