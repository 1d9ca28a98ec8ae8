// What a call answers instead of its result: document 01, "Numbers of refusal". A call that has no result answers `Result<(), Refusal>`.
// A new number comes in here: a case of `Refusal`, in `u8::from` and in `number_of`. Images and records have types of their own.
#![tactic(auto)]

ghost use Rattle.std.specs.Prelude.{◌≡◌};
ghost use Rattle.refusals.specs.Refusals.{number_of};

// One case for each number that a call may answer. Refusals of an image and of a record have types of their own.
#[derive(Clone, Copy, PartialEq, Eq)]
pub enum Refusal {
    // a key the table lacks
    Key,
    // an argument tag beyond the limits
    ArgumentTag,
    // a mapped or delayed tag beyond the limits
    MappedTag,
    // as many events wait as may, and one more is needed
    Waiting,
    // a new value or a new bucket is needed, and as many are held as may be
    Held,
    // the target mode is not of the named reactor
    TargetMode,
    // the state handed in breaks a state rule
    StateRule,
}

// The refusal's number in document 01.
impl From<Refusal> for u8 {
    ghost from_gives = { λ refusal n. n ≡ number_of refusal };

    fn from(refusal: Refusal) -> u8 {
        match refusal {
            Refusal::Key => 5,
            Refusal::ArgumentTag => 6,
            Refusal::MappedTag => 7,
            Refusal::Waiting => 8,
            Refusal::Held => 9,
            Refusal::TargetMode => 10,
            Refusal::StateRule => 11,
        }
    }
}
