// Laws on lists, rows in lent arrays and steps that every crate uses; no sentence of document 01. Definitions and laws, in specs/ and proofs/, and one function, `bit`.
// A law that two crates need comes in here, once.
#![tactic(auto)]

ghost use Rattle.std.specs.Prelude.{◌≡◌, ◌<◌};
ghost use Rattle.lists.specs.Tests.{bit_of};

// A flag as a number.
pub fn bit(b: bool) -> u64
    ensures { (result ≡ bit_of b) × (result < 2) }
{
    u64::from(b)
}
