// Pure theory, with no code of its own: a plane set into a larger one leaves its elements at their places there and nothing else
// changed, and two planes that are set side by side into one destination leave the joined plane.
#![tactic(auto)]
