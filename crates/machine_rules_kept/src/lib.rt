// Every accepted call keeps the state rules, from a fresh manager on: document 01, "State rules". Theorems only, in specs/ and proofs/.
// A new rule of the machine's `rules` comes in here, in Sound, and is shown kept call by call. In Timers stands document 02's C-19, "no restarted timer
// meets this branch", by which "only scopes with a parent have local events" is kept; in FromNothing its C-14, what a reset leaves of a clock and what of the old step 3 stays.
#![tactic(auto)]
