// Paths, flats, peaks, outranking ground, key heights, islands, passes and closing:
// definitions and mathematics, no code.
#![tactic(auto)]
