// Growth by types, as definitions and laws about them: a search adds an object of one type after the other, and only where a count demands
// one.
#![tactic(auto)]
