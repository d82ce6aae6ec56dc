// Heights as levels, the blank mark among them, and prominence: mathematics alone.
#![tactic(auto)]
