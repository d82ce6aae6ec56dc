// What is claimed of the definitions, with a proof of each claim, and the marked grids of document 01; no code.
#![tactic(auto)]
