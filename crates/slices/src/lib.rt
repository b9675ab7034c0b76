// Pure theory, with no code of its own: the elements of a sub-tensor are the plane's, and a sub-tensor that is copied leaves what the
// slice of the whole plane leaves, also where unit dimensions are removed. A plane that is mirrored in one dimension, moved, is the plane
// with that coordinate counted from the other end.
#![tactic(auto)]
