// A level of cells in groups, and the islands that each leads over: mathematics alone.
#![tactic(auto)]
