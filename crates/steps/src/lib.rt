// What 01 "The bench" means, as definitions and theorems about them. The code of the calls stands in the crate above.
#![tactic(auto)]
