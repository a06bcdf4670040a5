// Laws only: a record in memory that keeps nothing beside what is written stands for the record that is written of it.
#![tactic(auto)]
