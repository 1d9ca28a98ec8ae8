// One fate for every event, over any run of calls: document 01, "Demand 3". Theorems only, in specs/ and proofs/; docs/HISTORY.md explains them.
// What a call does to events is one table, `deed`: a new call, or a new way to make or drop an event, comes in there.
#![tactic(auto)]
