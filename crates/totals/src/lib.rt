// The pixels of each class in a window: what they are, and the laws of gathering them. The functions stand in the crates `gather` and `sums`.
#![tactic(auto)]
