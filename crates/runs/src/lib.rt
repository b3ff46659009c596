// The lowest run of numbers that pass a test: its definition, and the law that fixes it. There is no code here: `search`
// finds it among the bits of a map.
#![tactic(auto)]
