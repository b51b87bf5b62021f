// The answer of a search for the lowest number that passes a test, and its laws: many contracts above speak of it. No code.
#![tactic(auto)]
