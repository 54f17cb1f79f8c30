// Rows on the strict readers.
use crate::{Told, nothing, told, told_with};
use items::part_at;
use notation::first_numbers;
use refusal::Refusal;
use text::{put_at, put_decimal_at};

const LETTERS: [u8; 8] = *b"()[;ILVa";

// The reader of a method, or of a type.
fn parse(method: bool, text: &[u8], numbers: &mut [u64]) -> Result<usize, Refusal> {
    if method {
        return jdescriptor::parse_method(text, numbers);
    }
    jdescriptor::parse_type(text, numbers)
}

// Numbers, each behind a space.
fn put_numbers(out: &mut [u8], numbers: &[u64]) -> usize {
    let mut end = 0;
    for n in numbers {
        let space = put_at(out, end, b" ");
        end = put_decimal_at(out, space, *n as usize);
    }
    end
}

// A reader's answer over a lent buffer, which is the text.
fn parsed(out: &mut [u8], method: bool, text: &[u8], numbers: &mut [u64]) -> Told {
    let answer = parse(method, text, numbers);
    let end = put_numbers(out, numbers);
    match answer {
        Ok(count) => told_with(end, 0, count, 0, 0),
        Err(r) => told_with(end, 1, u64::from(r) as usize, 0, 0),
    }
}

// type | text | count of numbers lent => the answer | the numbers; what is not written stays 7
// method | text | count of numbers lent => the same
fn text(out: &mut [u8], method: bool, text: &[u8], room: usize) -> Told {
    if 256 < room {
        return nothing();
    }
    let mut numbers = [7u64; 256];
    parsed(out, method, text, first_numbers(&mut numbers, room))
}

// An answer as one number: the refusal's, or 15 and the count of types.
fn number_of(answer: Result<usize, Refusal>) -> u64 {
    match answer {
        Ok(count) => 15 + count as u64 % 1000,
        Err(r) => u64::from(r),
    }
}

// Writes between two places the letters that stand at a number in the list of all such texts over eight letters.
fn spell(text: &mut [u8], first: usize, end: usize, number: usize) {
    let mut rest = number;
    for i in (first..end).rev() {
        put_at(text, i, &[LETTERS[rest % 8]]);
        rest /= 8;
    }
}

fn stir(h: u64, x: u64) -> u64 {
    (h % 4_294_967_291 * 31 + x % 4_294_967_291) % 4_294_967_291
}

fn stir_all(h: u64, numbers: &[u64]) -> u64 {
    numbers.iter().fold(h, |mixed, x| stir(mixed, *x))
}

// What a reader answers and writes, stirred in.
fn stir_one(method: bool, h: u64, text: &[u8]) -> u64 {
    let mut numbers = [7u64; 12];
    let n = number_of(parse(method, text, &mut numbers));
    stir_all(stir(h, n), &numbers)
}

// One number for what both readers answer and write on so many texts with the same first bytes.
fn stirred(text: &mut [u8], first: usize, end: usize, count: usize) -> u64 {
    let mut mixed: u64 = 0;
    for k in 0..count {
        spell(text, first, end, k);
        let types = stir_one(false, mixed, part_at(text, 0, end));
        mixed = stir_one(true, types, part_at(text, 0, end));
    }
    mixed
}

// digest | beginning | letters | count => one number for what both readers make of the first so many texts with so many letters
// more
fn digest(beginning: &[u8], letters: usize, count: usize) -> Told {
    if 100 < beginning.len() {
        return nothing();
    }
    if 20 < letters {
        return nothing();
    }
    let mut text = [0u8; 128];
    let size = put_at(&mut text, 0, beginning);
    told(
        0,
        stirred(&mut text, size, size.saturating_add(letters), count) as usize,
        0,
        0,
    )
}

// What the library answers to a row about strict descriptors.
pub fn tell(out: &mut [u8], kind: usize, x: &[u8], a: usize, b: usize) -> Told {
    match kind {
        0 => text(out, false, x, a),
        1 => text(out, true, x, a),
        _ => digest(x, a, b),
    }
}
