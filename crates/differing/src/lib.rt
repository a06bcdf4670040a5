// Laws only: a record is legal for one diagram and illegal for another exactly when its world is allowed by the tables of the one and
// does not keep those of the other.
#![tactic(auto)]
