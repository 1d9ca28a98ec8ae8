// The plain machine: document 01, "The plain machine", "State rules" and the order of "Numbers of refusal". Definitions only, in specs/, each given
// once: contracts above cite them. A sentence of 01 is changed here first: the state (State), heads and pops (Heads), a transition (Transition), the
// calls (Machine).
#![tactic(auto)]
