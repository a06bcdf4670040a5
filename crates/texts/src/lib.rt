// Definitions and theorems only: diagrams typed as text.
#![tactic(auto)]
