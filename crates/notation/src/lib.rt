// Rows of data, as people write them. A row is a line: fields with bars between them, an arrow and the answer, as in
//
//     length | b6 at the end | b6 00 | 0 => none
//
// The first field is the row's kind. A line that is empty or starts with # is no row.
//
// Bytes are written as two hexadecimal digits each or as a text in quotes, with a space between: 2a be "abc" 00. A count and a
// star before either repeat it: 255*"[" "I". No bytes are "". A space, a star, a bar or an equals sign in a text is written in
// digits.
#![tactic(auto)]

ghost use Rattle.std.specs.Prelude.{◌≤◌, ◌<◌, ◌≡◌, take};
ghost use Rattle.notation.specs.Parts.{part_to, behind, is_row};

use bytesearch::find_byte;
use check::same;
use items::part_at;
use std::io::Read;
use std::rt::Files;
use std::{fs, io};
use text::{put_at, put_decimal_at};

// The first bytes of an output, all where it has fewer.
pub fn first_bytes<'a>(out: &'a mut [u8], count: usize) -> &'a mut [u8]
    ensures { result.now ≡ take count out.old }
{
    if count <= out.len() {
        return &mut out[..count];
    }
    out
}

// The first of some numbers, all where there are fewer.
pub fn first_numbers<'a>(numbers: &'a mut [u64], count: usize) -> &'a mut [u64]
    ensures { result.now ≡ take count numbers.old }
{
    if count <= numbers.len() {
        return &mut numbers[..count];
    }
    numbers
}

// The part of a text from a place to the next such byte, or to the end.
#[tactic(auto, using(bytesearch::proofs::Search::place_inside), unfolding(crate::specs::Parts::part_to))]
pub fn part_to<'a>(text: &'a [u8], at: usize, byte: u8) -> &'a [u8]
    ensures { result.now ≡ part_to byte text.now at }
{
    let Some(end) = find_byte(text, byte, at) else {
        return part_at(text, at, text.len());
    };
    part_at(text, at, end - at)
}

// The place behind such a part and its byte.
pub fn after(at: usize, part: &[u8]) -> usize
    ensures { result ≡ behind at part.now }
{
    at.saturating_add(part.len().saturating_add(1))
}

// Whether a line is a row.
pub fn is_row(line: &[u8]) -> bool
    ensures { result ≡ is_row line.now }
{
    if line.len() == 0 {
        return false;
    }
    if line[0] == b'#' {
        return false;
    }
    true
}

// The fields of a row, all before its arrow.
fn fields<'a>(row: &'a [u8]) -> &'a [u8] {
    part_to(row, 0, b'=')
}

// The answer behind the arrow and a space, nothing where the row has none.
fn answer<'a>(row: &'a [u8]) -> &'a [u8] {
    part_at(row, fields(row).len().saturating_add(3), row.len())
}

// The kind of a row.
pub fn kind_of<'a>(row: &'a [u8]) -> &'a [u8]
    ensures { result.now ≡ part_to 32 row.now 0 }
{
    part_to(row, 0, b' ')
}

// The value of a hexadecimal digit, 16 for any other byte.
fn digit_of(byte: u8) -> usize
    ensures { result ≤ 16 }
{
    match byte {
        b'0'..=b'9' => byte as usize - 48,
        b'a'..=b'f' => byte as usize - 87,
        _ => 16,
    }
}

// A number in decimal digits, of 64 bits at most; spaces are skipped. None where there is no digit, or what is none.
fn read_decimal(text: &[u8]) -> Option<usize> {
    let mut value: Option<usize> = None;
    for byte in text {
        if *byte != b' ' {
            let digit = digit_of(*byte);
            if 9 < digit {
                return None;
            }
            value = Some(value.unwrap_or(0).checked_mul(10)?.checked_add(digit)?);
        }
    }
    value
}

// Writes a part so many times from a place on, until the output ends. Answers the place after what was written, past the
// output's end where it does not fit.
fn put_times(out: &mut [u8], at: usize, part: &[u8], times: usize) -> usize {
    let mut end = at;
    for _ in 0..times {
        if out.len() < end {
            return end;
        }
        end = put_at(out, end, part);
    }
    end
}

// The byte that two digits stand for, 256 where they are none.
fn byte_of(high: u8, low: u8) -> usize {
    let h = digit_of(high);
    let l = digit_of(low);
    if h < 16 {
        if l < 16 {
            return 16 * h + l;
        }
    }
    256
}

// What a writer of items answers for what is no item: a place past every output.
const NOWHERE: usize = 0xffff_ffff_ffff_ffff;

// Writes two digits or a text in quotes so many times from a place on. Answers the place after it.
fn put_item(out: &mut [u8], at: usize, item: &[u8], times: usize) -> usize {
    let size = item.len();
    if size < 2 {
        return NOWHERE;
    }
    if item[0] == b'"' {
        if item[size - 1] == b'"' {
            return put_times(out, at, part_at(item, 1, size - 2), times);
        }
        return NOWHERE;
    }
    let byte = byte_of(item[0], item[1]);
    if size == 2 {
        if byte < 256 {
            return put_times(out, at, &[byte as u8], times);
        }
    }
    NOWHERE
}

// Writes an item that may be repeated from a place on; of no word nothing.
fn put_word(out: &mut [u8], at: usize, word: &[u8]) -> usize {
    if word.len() == 0 {
        return at;
    }
    let count = part_to(word, 0, b'*');
    if count.len() == word.len() {
        return put_item(out, at, word, 1);
    }
    let Some(times) = read_decimal(count) else {
        return NOWHERE;
    };
    put_item(out, at, part_at(word, after(0, count), word.len()), times)
}

// Reads written bytes into the start of an output. There are no more words than bytes of text; behind the last there is nothing.
// Answers how many bytes were read.
fn read_bytes(out: &mut [u8], text: &[u8]) -> Option<usize> {
    let mut at = 0;
    let mut end = 0;
    for _ in 0..text.len() {
        let word = part_to(text, at, b' ');
        end = put_word(out, end, word);
        at = after(at, word);
    }
    if end <= out.len() { Some(end) } else { None }
}

// A list of kinds has a line for each: its name, the shape of its fields and, behind a bar, the forms of its answers with
// semicolons between them.
#[derive(Clone, Copy)]
struct Kind {
    // The kind's number in the list, and where its line begins.
    number: usize,
    at: usize,
}

// Looks a kind up in a list. One that is missing has a number behind them all.
fn kind_in(kinds: &[u8], name: &[u8]) -> Kind {
    let mut at: usize = 0;
    for number in 0..kinds.len() {
        let line = part_to(kinds, at, b'\n');
        if same(part_to(line, 0, b' '), name) {
            return Kind { number, at };
        }
        at = after(at, line);
    }
    let number = kinds.len();
    Kind { number, at }
}

// The shape that the kind at a place of a list has.
fn shape_at<'a>(kinds: &'a [u8], at: usize) -> &'a [u8] {
    let name = part_to(kinds, at, b' ');
    part_to(kinds, after(at, name), b' ')
}

// The form of the answer with a number, nothing where there is none.
fn form_at<'a>(kinds: &'a [u8], kind: usize, number: usize) -> &'a [u8] {
    let line = part_to(kinds, kind, b'\n');
    let mut at = after(0, part_to(line, 0, b'|'));
    for _ in 0..number {
        at = after(at, part_to(line, at, b';'));
    }
    part_to(line, at, b';')
}

// A shape has a letter for each field behind the kind: x and y for bytes, f and g for the names of files that hold them, a, b, c and
// d for numbers, - for a remark. The place of a field's value among the values.
fn place_of(letter: u8) -> usize
    ensures { result < 7 }
{
    match letter {
        b'x' | b'f' => 0,
        b'y' | b'g' => 1,
        b'a' => 2,
        b'b' => 3,
        b'c' => 4,
        b'd' => 5,
        _ => 6,
    }
}

// A name between two spaces.
fn name_in<'a>(field: &'a [u8]) -> &'a [u8] {
    part_to(field, 1, b' ')
}

// What a field is read as: a number, or how many bytes were read.
fn read_field(
    rt: &(impl Files + Print),
    letter: u8,
    field: &[u8],
    x: &mut [u8],
    y: &mut [u8],
) -> io::Result<Option<usize>> {
    Ok(match letter {
        b'x' => read_bytes(x, field),
        b'y' => read_bytes(y, field),
        b'f' => Some(read_file(rt, x, name_in(field))?),
        b'g' => Some(read_file(rt, y, name_in(field))?),
        b'-' => Some(0),
        _ => read_decimal(field),
    })
}

// Reads fields of a shape: bytes into two outputs, and numbers. Answers whether they are so many, and all can be read.
fn read_fields(
    rt: &(impl Files + Print),
    fields: &[u8],
    shape: &[u8],
    values: &mut [usize; 7],
    x: &mut [u8],
    y: &mut [u8],
) -> io::Result<bool> {
    // The place of the bar before a field, at last the end.
    let mut bar = part_to(fields, 0, b'|').len();
    for letter in shape {
        let letter = *letter;
        let field = part_to(fields, bar.saturating_add(1), b'|');
        let Some(n) = read_field(rt, letter, field, x, y)? else {
            return Ok(false);
        };
        values[place_of(letter)] = n;
        bar = after(bar, field);
    }
    Ok(bar == fields.len())
}

// Writes a part of a form from a place on, with a text for its dollar sign.
fn put_part(out: &mut [u8], at: usize, part: &[u8], text: &[u8]) -> usize {
    let head = part_to(part, 0, b'$');
    let end = put_at(out, at, head);
    if head.len() == part.len() {
        return end;
    }
    let next = put_at(out, end, text);
    put_at(out, next, part_at(part, after(0, head), part.len()))
}

// Writes a form over the start of an output, with numbers behind the first of some for its number signs, and a text for its
// dollar sign. Answers the form's end.
fn put_form(out: &mut [u8], form: &[u8], numbers: &[usize], text: &[u8]) -> usize {
    let mut at = 0;
    let mut end = 0;
    for number in numbers.iter().skip(1) {
        let part = part_to(form, at, b'#');
        end = put_part(out, end, part, text);
        at = after(at, part);
        if form.len() < at {
            return end;
        }
        end = put_decimal_at(out, end, *number);
    }
    end
}

// Reads a row of a kind in a list: its fields, and before them those of a row that holds members, a count d and bytes y. Answers
// the kind's number, one behind them all where the row can't be read.
pub fn read_row(
    rt: &(impl Files + Print),
    kinds: &[u8],
    row: &[u8],
    members: &[u8],
    values: &mut [usize; 7],
    x: &mut [u8],
    y: &mut [u8],
) -> io::Result<usize> {
    let kind = kind_in(kinds, kind_of(row));
    read_fields(rt, fields(members), b"-dy", values, x, y)?;
    if read_fields(rt, fields(row), shape_at(kinds, kind.at), values, x, y)? {
        return Ok(kind.number);
    }
    Ok(kinds.len())
}

fn say(rt: &impl Print, text: &[u8]) -> io::Result<()> {
    rt.write_all(text)
}

fn say_difference(rt: &impl Print, row: &[u8], answered: &[u8]) -> io::Result<()> {
    say(rt, row)?;
    say(rt, b"\n    is answered ")?;
    say(rt, answered)?;
    say(rt, b"\n")
}

// Whether what is told is the answer that a row holds: the number of a form, numbers, and last the length of a text. What is told
// otherwise is printed.
pub fn is_answered(
    rt: &impl Print,
    kinds: &[u8],
    row: &[u8],
    told: &[usize; 14],
    text: &[u8],
) -> io::Result<bool> {
    let kind = kind_in(kinds, kind_of(row));
    let form = form_at(kinds, kind.at, told[0]);
    let mut out = [0u8; 2048];
    let end = put_form(&mut out, form, told, part_at(text, 0, told[13]));
    if end == 0 {
        say_difference(rt, row, b"by nothing, for it can't be read")?;
        return Ok(false);
    }
    let answered = part_at(&out, 0, end);
    if same(answered, answer(row)) {
        return Ok(true);
    }
    say_difference(rt, row, answered)?;
    Ok(false)
}

// Prints how many rows of a file agree.
pub fn say_agreed(rt: &impl Print, name: &[u8], agreed: usize) -> io::Result<()> {
    say(rt, name)?;
    println!(rt; ": {agreed} rows agree")
}

// Reads until a buffer is full, the file ends or a read fails. Answers how many bytes of the file are at the buffer's start.
fn read_full(file: &mut impl Read, buffer: &mut [u8]) -> usize {
    let mut done: usize = 0;
    // A place stays: a read takes as many bytes as it has, so no `for` counts the turns.
    while done < buffer.len() {
        let Ok(n) = file.read(&mut buffer[done..]) else {
            return done;
        };
        if n == 0 {
            return done;
        }
        done += n;
    }
    done
}

// Reads as much of a file as a buffer has room for, nothing where no file can be opened by that name. Names are UTF-8.
fn read_start(rt: &impl Files, buffer: &mut [u8], name: &[u8]) -> usize {
    let Ok(path) = str::from_utf8(name) else {
        return 0;
    };
    let Ok(mut file) = fs::open(rt, path) else {
        return 0;
    };
    read_full(&mut file, buffer)
}

// Reads a file into the start of a buffer. Answers its length, 0 where it can't be read; a file that fills the buffer is too long.
pub fn read_file(rt: &(impl Files + Print), buffer: &mut [u8], name: &[u8]) -> io::Result<usize> {
    let size = read_start(rt, buffer, name);
    if size < buffer.len() {
        return Ok(size);
    }
    say(rt, name)?;
    say(rt, b" is too long\n")?;
    Ok(0)
}
