// The rules of a diagram on a record in memory, and the tables that its world keeps: theorems that the two say the same.
#![tactic(auto)]
