// Pure theory, with no code of its own: transfers over one memory, in whatever order they step, leave what whole moves leave when
// done one after another in the order of acceptance. It holds for every mover that keeps the laws of specs/Claims.antt.
#![tactic(auto)]
