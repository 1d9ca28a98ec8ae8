// Document 01, "Demand 3", for the code: the public calls of the manager, made one after the other from a fresh one, and the runs of days. Theorems only,
// in specs/ and proofs/. It goes by the manager's `step_on` and the day's `ran` alone.
#![tactic(auto)]
