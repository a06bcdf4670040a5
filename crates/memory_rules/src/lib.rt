// The nine rules on a record in memory, shown to be the rules of the record of names that it stands for.
#![tactic(auto)]
