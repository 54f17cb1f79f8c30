// What the program's words ask for: --full the full model, --wording and a number that wording. Named twice, the last holds.
#![tactic(auto)]

ghost use Rattle.std.specs.Prelude.{◌-◌, ◌≡◌};
ghost use Rattle.basics.specs.Choice.{pick, between};
ghost use Rattle.asked.specs.Asked.{decimal_in, word_of, unasked as Unasked, wrongly, after_in, after_word};
ghost use Rattle.asked.specs.declared.State.TheVariants.{Whole, Pending};

use check::same;
use effects::Model;
use words::{Wording, wording_by};

// A word as it is read: a number by the wording that it names. A word that is none of these is Other, since None is what stands behind
// the last word.
#[derive(Clone, Copy)]
pub enum Word {
    Full,
    Wording,
    Number(Option<Wording>),
    Other,
}

// Whether the words so far are whole, lack the number of a wording, or have a wrong one among them. It is no Result: what is asked for is
// kept behind a wrong word too.
#[derive(Clone, Copy)]
pub enum State {
    Whole,
    Pending,
    Wrong,
}

#[derive(Clone, Copy)]
pub struct Asked {
    pub model: Model,
    pub wording: Option<Wording>,
    pub state: State,
}

// The value of a decimal digit, 10 for any other byte.
fn digit_of(byte: u8) -> usize
    ensures { result ≡ pick (between 48 57 byte) (byte - 48) 10 }
{
    match byte {
        b'0'..=b'9' => byte as usize - 48,
        _ => 10,
    }
}

// A number in decimal digits. From 1000 on it stays: no wording has such a number.
// The rest is read all the same: a byte that is no digit makes the word Other.
fn read_decimal(text: &[u8]) -> Word
    ensures { result ≡ decimal_in text.now }
{
    if text.len() == 0 {
        return Word::Other;
    }
    let mut value: usize = 0;
    for byte in text {
        let digit = digit_of(*byte);
        if 9 < digit {
            return Word::Other;
        }
        value = (10 * value + digit).min(1000);
    }
    Word::Number(wording_by(value))
}

// A word of the program.
pub fn read_word(text: &[u8]) -> Word
    ensures { result ≡ word_of text.now }
{
    if same(text, b"--full") {
        return Word::Full;
    }
    if same(text, b"--wording") {
        return Word::Wording;
    }
    read_decimal(text)
}

// What is asked for by no word.
pub fn unasked() -> Asked
    ensures { result ≡ Unasked }
{
    let unnamed = report::default_manner();
    let model = unnamed.model;
    let wording = unnamed.wording;
    Asked {
        model,
        wording: Some(wording),
        state: State::Whole,
    }
}

// The same with a wrong word among them.
fn wrong(asked: Asked) -> Asked
    ensures { result ≡ wrongly asked }
{
    let model = asked.model;
    let wording = asked.wording;
    Asked {
        model,
        wording,
        state: State::Wrong,
    }
}

// What is asked for by one word more, where those before are whole.
fn after_whole(asked: Asked, word: Word) -> Asked
    ensures { result ≡ after_in Whole asked word }
{
    let model = asked.model;
    let wording = asked.wording;
    match word {
        Word::Full => Asked {
            model: Model::Full,
            wording,
            state: State::Whole,
        },
        Word::Wording => Asked {
            model,
            wording,
            state: State::Pending,
        },
        Word::Number(_) => wrong(asked),
        Word::Other => wrong(asked),
    }
}

// Where they lack a number.
fn after_pending(asked: Asked, word: Word) -> Asked
    ensures { result ≡ after_in Pending asked word }
{
    let model = asked.model;
    match word {
        Word::Full => wrong(asked),
        Word::Wording => wrong(asked),
        Word::Number(named) => Asked {
            model,
            wording: named,
            state: State::Whole,
        },
        Word::Other => wrong(asked),
    }
}

// What is asked for by one word more.
pub fn after_word(asked: Asked, word: Word) -> Asked
    ensures { result ≡ after_word asked word }
{
    let state = asked.state;
    match state {
        State::Whole => after_whole(asked, word),
        State::Pending => after_pending(asked, word),
        State::Wrong => asked,
    }
}
