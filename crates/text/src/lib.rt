// Writing into what remains of a lent output. A text that is longer than the output is written as far as it reaches, and the
// place after it is answered all the same. So nothing is asked of a caller, and a text is measured by writing it from the
// output's end on.
#![tactic(auto)]

ghost use Rattle.std.specs.Prelude.{◌≡◌, [], ◌∷◌, ◌+◌, ◌<◌, length};
ghost use Rattle.text.specs.Decimal.{decimal};
ghost use Rattle.text.specs.Writing.{splice, Written};

// Writes a part over the start of the output. Answers its length.
pub fn put(out: &mut [u8], part: &[u8]) -> usize
    ensures { Written 0 part.now out.old result out.new }
{
    let room = part.len().min(out.len());
    // A place stays: `copy_from_slice` is a call of `memmove`, which the archive then needs from outside, and takes longer for short parts.
    for i in 0..room {
        out[i] = part[i];
    }
    part.len()
}

// Writes a part into the output from a place on. Answers the place after it.
pub fn put_at(out: &mut [u8], at: usize, part: &[u8]) -> usize
    ensures { Written at part.now out.old result out.new }
{
    let from = at.min(out.len());
    let n = put(&mut out[from..], part);
    at.saturating_add(n)
}

// How many digits a number has.
fn digit_count(n: usize) -> usize
    ensures { result ≡ length (decimal n) }
{
    let mut count = 1;
    let mut left = n;
    while 10 <= left {
        count += 1;
        left /= 10;
    }
    count
}

// Writes a digit at a place, where the output reaches it.
fn put_digit_at(out: &mut [u8], at: usize, digit: usize)
    requires { digit < 10 }
    ensures { out.new ≡ splice at ((48 + digit) ∷ []) out.old }
{
    if at < out.len() {
        out[at] = (48 + digit) as u8;
    }
}

// Writes a number in decimal over the start of the output, each digit in its place, from the last to the first. Answers how many they
// are; without an output, as where a message is measured, that is all.
pub fn put_decimal(out: &mut [u8], n: usize) -> usize
    ensures { Written 0 (decimal n) out.old result out.new }
{
    let count = digit_count(n);
    if out.len() == 0 {
        return count;
    }
    let mut at = count;
    let mut left = n;
    while 10 <= left {
        at -= 1;
        put_digit_at(out, at, left % 10);
        left /= 10;
    }
    put_digit_at(out, 0, left);
    count
}

// The same from a place on. Answers the place after it.
pub fn put_decimal_at(out: &mut [u8], at: usize, n: usize) -> usize
    ensures { Written at (decimal n) out.old result out.new }
{
    let from = at.min(out.len());
    let digits = put_decimal(&mut out[from..], n);
    at.saturating_add(digits)
}
