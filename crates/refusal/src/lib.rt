// Why a strict descriptor is refused, with document 01's numbers ("Descriptors", strict).
#![tactic(auto)]

ghost use Rattle.std.specs.Prelude.{◌≡◌};
ghost use Rattle.refusal.specs.Refusal.{number_of};

// Why a descriptor is refused, in the order of document 01's numbers 1 to 14.
#[derive(Clone, Copy)]
pub enum Refusal {
    UnexpectedEnd,
    TooManyDimensions,
    LoneClose,
    TrailingAfterType,
    EmptyClassName,
    MissingSemicolon,
    CloseAfterBracket,
    ArrayOfVoid,
    Unrecognised,
    MissingOpening,
    VoidParameter,
    MissingReturn,
    TrailingAfterMethod,
    // The numbers do not fit the lent buffer.
    NoRoom,
}

// The number that document 01 gives to a refusal.
impl From<Refusal> for u64 {
    ghost from_gives = { λ refusal number. number ≡ number_of refusal };

    #[tactic(auto, unfolding(crate::specs::Refusal::number_of))]
    fn from(refusal: Refusal) -> u64 {
        match refusal {
            Refusal::UnexpectedEnd => 1,
            Refusal::TooManyDimensions => 2,
            Refusal::LoneClose => 3,
            Refusal::TrailingAfterType => 4,
            Refusal::EmptyClassName => 5,
            Refusal::MissingSemicolon => 6,
            Refusal::CloseAfterBracket => 7,
            Refusal::ArrayOfVoid => 8,
            Refusal::Unrecognised => 9,
            Refusal::MissingOpening => 10,
            Refusal::VoidParameter => 11,
            Refusal::MissingReturn => 12,
            Refusal::TrailingAfterMethod => 13,
            Refusal::NoRoom => 14,
        }
    }
}
