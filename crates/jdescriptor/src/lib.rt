// The strict descriptor readers, of a type and of a method (document 01, "Descriptors", strict). A text is judged first and
// its numbers are written after, so that a refusal leaves the lent buffer alone.
#![tactic(auto)]

ghost use Rattle.std.specs.Prelude.{◌≡◌, ◌+◌, ◌*◌, ◌≤◌, ◌<◌, length};
ghost use Rattle.basics.specs.Parts.{overlaid};
ghost use Rattle.judging.specs.Reading.{type_reading, return_at, method_reading};
ghost use Rattle.jdescriptor.specs.Answer.{four, numbers_of, answer, written, IsTypes, records_of};

use jtype::TypeRecord;
use judging::judge_method;
use refusal::Refusal;

// The four numbers of a type, from place k of the buffer on.
#[tactic(auto, unfolding(basics::specs::Parts::overlaid))]
fn put_record(numbers: &mut [u64], k: usize, t: TypeRecord)
    requires { k + 4 ≤ length numbers.old }
    ensures { numbers.new ≡ overlaid k (four t) numbers.old }
{
    numbers[k..k + 4].copy_from_slice(&[t.letter, t.dimensions, t.start, t.size]);
}

// A text that is one type.
#[tactic(auto, unfolding(crate::specs::Answer::answer, crate::specs::Answer::written, judging::specs::Reading::type_reading))]
pub fn parse_type(text: &[u8], numbers: &mut [u64]) -> Result<usize, Refusal>
    ensures value { result ≡ answer (type_reading text.now) (length numbers.old) }
    ensures numbers_after { numbers.new ≡ written (type_reading text.now) numbers.old }
{
    let Some((t, end)) = jtype::get_next(text, 0)? else {
        return Err(Refusal::LoneClose);
    };
    if end < text.len() {
        return Err(Refusal::TrailingAfterType);
    }
    if numbers.len() < 4 {
        return Err(Refusal::NoRoom);
    }
    put_record(numbers, 0, t);
    Ok(1)
}

// The numbers of a return that was judged, from place k of the buffer on.
#[tactic(auto, unfolding(crate::specs::Answer::numbers_of, judging::specs::Reading::return_at))]
fn fill_return(text: &[u8], at: usize, numbers: &mut [u64], k: usize)
    requires types { IsTypes (return_at text.now at) }
    requires at_in_bounds { k + 4 * length (records_of (return_at text.now at)) ≤ length numbers.old }
    ensures { numbers.new ≡ overlaid k (numbers_of (records_of (return_at text.now at))) numbers.old }
{
    if let Ok(Some((t, _))) = jtype::get_next(text, at) {
        put_record(numbers, k, t);
    }
}

// The numbers of a method descriptor that was judged and found to fit.
#[tactic(auto, using(crate::proofs::Filling::filled, crate::proofs::Filling::begun, judging::proofs::Judging::type_ends))]
fn fill_method(text: &[u8], numbers: &mut [u64])
    requires types { IsTypes (method_reading text.now) }
    requires text_in_bounds { 4 * length (records_of (method_reading text.now)) ≤ length numbers.old }
    ensures { numbers.new ≡ overlaid 0 (numbers_of (records_of (method_reading text.now))) numbers.old }
{
    let mut at = 1;
    let mut k = 0;
    while let Ok(Some((t, end))) = jtype::get_next(text, at) {
        put_record(numbers, k, t);
        k += 4;
        at = end;
    }
    fill_return(text, at + 1, numbers, k);
}

// A text that is one method: its parameters, then its return.
#[tactic(auto, using(crate::proofs::Answering::accepted, crate::proofs::Answering::turned_down))]
pub fn parse_method(text: &[u8], numbers: &mut [u64]) -> Result<usize, Refusal>
    ensures value { result ≡ answer (method_reading text.now) (length numbers.old) }
    ensures numbers_after { numbers.new ≡ written (method_reading text.now) numbers.old }
{
    let count = judge_method(text)?;
    if numbers.len() / 4 < count {
        return Err(Refusal::NoRoom);
    }
    fill_method(text, numbers);
    Ok(count)
}
