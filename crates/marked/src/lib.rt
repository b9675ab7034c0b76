// Pure theory, with no code of its own: the paper's marked examples A to L as one table of definitions (specs/Examples.antt), with one
// proof over it. The program examples runs them through the public calls.
#![tactic(auto)]
