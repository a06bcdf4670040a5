// Laws only: a record in memory by one diagram's indices, as another diagram judges it.
#![tactic(auto)]
