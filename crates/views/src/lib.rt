// A diagram through the indices of another one, old: tables by old's types and role slots.
#![tactic(auto)]
