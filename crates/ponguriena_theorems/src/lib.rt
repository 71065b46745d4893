// The theorems that customers were given, at the number of seats that the library has. No code.
#![tactic(auto)]
