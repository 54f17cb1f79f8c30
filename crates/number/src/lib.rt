// The numbers of a case (document 01, "The case"): seven bits to a byte, low group first. Every function takes any bytes and any place.
#![tactic(auto)]

ghost use Rattle.std.specs.Prelude.{◌≡◌, ◌<◌, length};
ghost use Rattle.number.specs.Number.{greatest, further, number_at, number_within, rest_within};

// The greatest number of a case has three groups, the last of which is this.
const LAST_GROUP: usize = 3;

// The number at a place, at most the limit, and the place after it. The groups behind the first are a number themselves,
// whose limit is what the first leaves; it is above 0, or the bytes would not be the fewest.
#[tactic(auto, using(crate::proofs::Laws::number_past, crate::proofs::Laws::number_one, crate::proofs::Laws::number_small, crate::proofs::Laws::number_more))]
pub fn read_number(bytes: &[u8], at: usize, limit: usize) -> Option<(usize, usize)>
    ensures { (result ≡ number_at limit bytes.now at) × number_within limit (length bytes.now) at result }
{
    if bytes.len() <= at {
        return None;
    }
    let group = bytes[at] as usize;
    if group < 128 {
        if group <= limit {
            return Some((group, at + 1));
        }
        return None;
    }
    if limit < 128 {
        return None;
    }
    let low = group - 128;
    let (high, next) = read_number(bytes, at + 1, (limit - low) / 128)?;
    if high == 0 {
        return None;
    }
    Some((low + 128 * high, next))
}

// A low group before a number that is read: in the fewest bytes only where that number is above 0.
fn joined(low: usize, rest: Option<(usize, usize)>) -> Option<(usize, usize)>
    requires { (low < 128) × rest_within rest }
    ensures { result ≡ further low rest }
{
    let (above, next) = rest?;
    if above == 0 {
        return None;
    }
    Some((low + 128 * above, next))
}

// The third group of a number of a case.
#[tactic(auto, using(crate::proofs::Laws::number_past, crate::proofs::Laws::number_above, crate::proofs::Laws::number_one))]
fn third_group(bytes: &[u8], at: usize) -> Option<(usize, usize)>
    ensures { (result ≡ number_at 3 bytes.now at) × number_within 3 (length bytes.now) at result }
{
    if bytes.len() <= at {
        return None;
    }
    let group = bytes[at] as usize;
    if LAST_GROUP < group {
        return None;
    }
    Some((group, at + 1))
}

// The second group, and what follows it.
#[tactic(auto, using(crate::proofs::Laws::number_past, crate::proofs::Laws::number_one, crate::proofs::Laws::number_behind))]
fn second_group(bytes: &[u8], at: usize) -> Option<(usize, usize)>
    ensures { (result ≡ number_at 511 bytes.now at) × number_within 511 (length bytes.now) at result }
{
    if bytes.len() <= at {
        return None;
    }
    let group = bytes[at] as usize;
    if group < 128 {
        return Some((group, at + 1));
    }
    joined(group - 128, third_group(bytes, at + 1))
}

// The number of a case at a place: what `read_number` reads up to 65,535, without recursion, which is faster.
#[tactic(auto, using(crate::proofs::Laws::number_past, crate::proofs::Laws::number_one, crate::proofs::Laws::number_behind))]
pub fn case_number(bytes: &[u8], at: usize) -> Option<(usize, usize)>
    ensures { (result ≡ number_at greatest bytes.now at) × number_within greatest (length bytes.now) at result }
{
    if bytes.len() <= at {
        return None;
    }
    let group = bytes[at] as usize;
    if group < 128 {
        return Some((group, at + 1));
    }
    joined(group - 128, second_group(bytes, at + 1))
}
