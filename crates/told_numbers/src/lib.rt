// What a C program is told in its buffers comes back as what the world, the search and the screen say. No code.
#![tactic(auto)]
