// The letters of a strict descriptor (document 01, "Descriptors", strict): which of them are base types.
#![tactic(auto)]

ghost use Rattle.std.specs.Prelude.{◌≡◌};
ghost use Rattle.jletter.specs.Letter.{is_base};

// One of the eight base letters.
#[tactic(auto, unfolding(crate::specs::Letter::is_base))]
pub fn is_base(letter: u8) -> bool
    ensures { result ≡ is_base letter }
{
    match letter {
        b'B'..=b'D' => true,
        b'F' => true,
        b'I'..=b'J' => true,
        b'S' => true,
        b'Z' => true,
        _ => false,
    }
}
