// The methods of a class file as numbers, eight a method, in the file's order (document 02, request 3). The file is judged whole first and
// its numbers are written after, so that a refusal leaves the lent buffer alone.
#![tactic(auto)]

ghost use Rattle.std.specs.Prelude.{List, ◌≡◌, ℕ, ◌+◌, ◌*◌, ◌≤◌, length};
ghost use Rattle.basics.specs.Bytes.{u16_at};
ghost use Rattle.basics.specs.Parts.{overlaid};
ghost use Rattle.classformat.specs.Contents.{Method};
ghost use Rattle.classformat.specs.ClassFile.{method_format};
ghost use Rattle.entries.specs.Entries.{entry_by, names_by};
ghost use Rattle.format.specs.Format.{times, read_by, right};
ghost use Rattle.methodlist.specs.List.{listed, list_answer, list_output, Delivered, text_place, CodeInside, code_numbers, numbers_by};

use bodies::CodePlace;
use classfile::read_class;
use classformat::Entry;
use entries::entry_at;
use localtables::count_locals;
use methods::{MethodPlace, read_method};
use reads::read_u16;

// The longest file that is read.
const LONGEST: usize = 1048576;

// A table of so many cells is soon cleared, and most pools have no more numbers.
const FEW: usize = 1024;

// No pool has more numbers: their count is a number of two bytes.
const ALL: usize = 65536;

// Why the methods of a file are not listed.
#[derive(Clone, Copy)]
pub enum ListError {
    TooLong,
    // The place of the first wrong item.
    Wrong(usize),
    // How many numbers are needed.
    NoRoom(usize),
}

// Where the bytes of a text start in the file, and how many they are.
#[derive(Clone, Copy)]
pub struct TextPlace {
    pub start: usize,
    pub size: usize,
}

// Where the instructions of a method start in the file, how many bytes they are, and how many local records it has.
#[derive(Clone, Copy)]
pub struct CodeNumbers {
    pub start: usize,
    pub size: usize,
    pub records: usize,
}

// The text that a pool number leads to, 0 and 0 where it leads to none.
fn find_text(file: &[u8], table: &[usize], index: usize) -> TextPlace
    ensures { result ≡ text_place (entry_by file.now table.now index) }
{
    match entry_at(file, table, index) {
        Entry::Text { start, size } => TextPlace { start, size },
        _ => TextPlace { start: 0, size: 0 },
    }
}

// The numbers of a method's code, each 0 where it has none.
fn find_code(file: &[u8], table: &[usize], body: Option<CodePlace>) -> CodeNumbers
    requires { CodeInside body }
    ensures { result ≡ code_numbers file.now table.now body }
{
    match body {
        None => CodeNumbers {
            start: 0,
            size: 0,
            records: 0,
        },
        Some(code) => CodeNumbers {
            start: code.start,
            size: code.size,
            records: count_locals(file, table, code.start + code.size, code.stop),
        },
    }
}

// The eight numbers of a method, from place k of the buffer on.
fn put_method(file: &[u8], table: &[usize], method: MethodPlace, numbers: &mut [u64], k: usize)
    requires code_inside { CodeInside method.body }
    requires k_in_bounds { k + 8 ≤ length numbers.old }
    ensures { numbers.new ≡ overlaid k (numbers_by file.now table.now method) numbers.old }
{
    let body = method.body;
    let code = find_code(file, table, body);
    let name = find_text(file, table, method.name);
    let descriptor = find_text(file, table, method.descriptor);
    numbers[k] = method.flags as u64;
    numbers[k + 1] = code.start as u64;
    numbers[k + 2] = code.size as u64;
    numbers[k + 3] = name.start as u64;
    numbers[k + 4] = name.size as u64;
    numbers[k + 5] = descriptor.start as u64;
    numbers[k + 6] = descriptor.size as u64;
    numbers[k + 7] = code.records as u64;
}

// The numbers of so many methods that were judged and found to fit.
fn fill_methods(file: &[u8], table: &[usize], from: usize, count: usize, numbers: &mut [u64])
    requires { 8 * count ≤ length numbers.old }
    ensures { (methods : List Method) (end : ℕ) →
        read_by (times count (method_format (names_by file.now table.now) (length file.now)))
        file.now from ≡ right methods end →
        numbers.new ≡ overlaid 0 (listed (entry_by file.now table.now) methods) numbers.old }
{
    let mut at = from;
    let mut k = 0;
    for _ in 0..count {
        let Ok(method) = read_method(file, table, at, file.len()) else {
            return;
        };
        put_method(file, table, method, numbers, k);
        k += 8;
        at = method.next;
    }
}

// Lists by a lent table, which has a cell for each pool number.
fn list_with(file: &[u8], table: &mut [usize], numbers: &mut [u64]) -> Result<usize, ListError>
    requires { u16_at file.now 8 ≤ length table.old }
    ensures { Delivered file.now numbers.old result numbers.new }
{
    let class = match read_class(file, table) {
        Ok(class) => class,
        Err(wrong) => {
            return Err(ListError::Wrong(wrong));
        }
    };
    let count = class.count;
    let needed = 8 * count;
    if numbers.len() < needed {
        return Err(ListError::NoRoom(needed));
    }
    fill_methods(file, table, class.from, count, numbers);
    Ok(count)
}

// Lists by a table of so many cells.
fn list_within<const N: usize>(file: &[u8], numbers: &mut [u64]) -> Result<usize, ListError>
    requires fits { u16_at file.now 8 ≤ N }
    requires n_in_bounds { N ≤ ALL }
    ensures { Delivered file.now numbers.old result numbers.new }
{
    let mut table = [0usize; N];
    list_with(file, &mut table, numbers)
}

// Lists the methods of a class file, and answers how many there are: the buffer starts with eight numbers of each.
pub fn list_methods(file: &[u8], numbers: &mut [u64]) -> Result<usize, ListError>
    ensures answers { result ≡ list_answer file.now (length numbers.old) }
    ensures leaves { numbers.new ≡ list_output file.now numbers.old }
{
    if LONGEST < file.len() {
        return Err(ListError::TooLong);
    }
    if read_u16(file, 8) <= FEW {
        return list_within::<FEW>(file, numbers);
    }
    list_within::<ALL>(file, numbers)
}
