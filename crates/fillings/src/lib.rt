// Records of names in memory, witnesses, and the size of legal records, as definitions and laws about them.
#![tactic(auto)]
