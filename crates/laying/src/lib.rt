// A case's items (document 01, "The case") written into what remains of a lent output from a place on. A function that writes answers
// the place after its item, also where the output ends before it, so an item is measured by writing it to no output.
#![tactic(auto)]

ghost use Rattle.std.specs.Prelude.{[], ◌∷◌};
ghost use Rattle.text.specs.Writing.{Written};
ghost use Rattle.number.specs.Number.{number_bytes};
ghost use Rattle.items.specs.Text.{text_bytes};

use text::put_at;

// Writes a byte at a place, where the output reaches it. Answers the place after it.
fn put_byte_at(out: &mut [u8], at: usize, byte: u8) -> usize
    ensures { Written at (byte ∷ []) out.old result out.new }
{
    if at < out.len() {
        out[at] = byte;
    }
    at.saturating_add(1)
}

// Writes a number from a place on: seven bits to a byte, low group first, in its fewest bytes. Answers the place after it. Any number is
// written, also one that is too large for a case.
pub fn put_number_at(out: &mut [u8], at: usize, n: usize) -> usize
    ensures { Written at (number_bytes n) out.old result out.new }
{
    let mut next = at;
    let mut left = n;
    while 128 <= left {
        next = put_byte_at(out, next, (128 + left % 128) as u8);
        left /= 128;
    }
    put_byte_at(out, next, left as u8)
}

// Writes a text from a place on: its length, then its bytes. Answers the place after it.
pub fn put_text_at(out: &mut [u8], at: usize, text: &[u8]) -> usize
    ensures { Written at (text_bytes text.now) out.old result out.new }
{
    let start = put_number_at(out, at, text.len());
    put_at(out, start, text)
}
