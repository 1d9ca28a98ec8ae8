// Small days, computed by the checker with the plain machine's definitions and held to the Rust's answers: document 01, "All else is run against the
// Rust". Theorems only, in specs/. A new day is a text in days/small, whose theorem tools/small-days writes; what no day can have is written by hand.
#![tactic(auto)]
