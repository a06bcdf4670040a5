// What it means to choose a smallest record with a property, as definitions and theorems about them.
#![tactic(auto)]
