// A method's strict descriptor judged (document 01, "Descriptors", strict): how many types it has, or its first refusal.
#![tactic(auto)]

ghost use Rattle.std.specs.Prelude.{◌≡◌, ◌<◌, length};
ghost use Rattle.judging.specs.Judged.{judged, raised};
ghost use Rattle.judging.specs.Reading.{return_at, method_reading};

use jtype::TypeRecord;
use refusal::Refusal;

// The return at a place, behind count parameters.
#[tactic(auto, unfolding(crate::specs::Reading::return_at))]
fn judge_return(text: &[u8], at: usize, count: usize) -> Result<usize, Refusal>
    requires { count < length text.now }
    ensures { result ≡ raised count (judged (return_at text.now at)) }
{
    let Some((_, end)) = jtype::get_next(text, at)? else {
        return Err(Refusal::MissingReturn);
    };
    if end < text.len() {
        return Err(Refusal::TrailingAfterMethod);
    }
    Ok(count + 1)
}

// How many types a method descriptor has, or the first refusal.
#[tactic(auto, using(crate::proofs::Judging::type_ends, crate::proofs::Judging::empty, crate::proofs::Judging::not_opened))]
pub fn judge_method(text: &[u8]) -> Result<usize, Refusal>
    ensures { result ≡ judged (method_reading text.now) }
{
    if text.is_empty() || text[0] != b'(' {
        return Err(Refusal::MissingOpening);
    }
    let mut at = 1;
    let mut count = 0;
    while let Some((t, end)) = jtype::get_next(text, at)? {
        if t.letter == TypeRecord::VOID {
            return Err(Refusal::VoidParameter);
        }
        count += 1;
        at = end;
    }
    judge_return(text, at + 1, count)
}
