// The constant pool of a class file (JVMS 4.4): every entry is judged, and a lent table takes the places of the entries. The reader takes any
// file, any count and any table.
// A run of items answers the place after its last item, or the place of the first wrong one.
#![tactic(auto)]

ghost use Rattle.std.specs.Prelude.{◌≡◌, false, ◌-◌, ◌≤◌, length, set, replicate};
ghost use Rattle.format.specs.Format.{read_by};
ghost use Rattle.format.specs.Items.{run_of};
ghost use Rattle.classformat.specs.ClassFile.{wide, right_tag, entry_format, pool_format};
ghost use Rattle.pool.specs.Pool.{first_width, second_width, passed_by, tagged_format, placed, places_in};

use reads::{byte_at, read_u16};
use utf8::is_modified;

// How many bytes the first number has that stands behind a tag other than a Utf8's.
#[tactic(auto, unfolding(crate::specs::Pool::first_width))]
fn first_width(tag: u8) -> usize
    ensures { result ≡ first_width tag }
{
    if tag <= 6 {
        return 4;
    }
    if tag == 15 {
        return 1;
    }
    2
}

// How many bytes the second one has, 0 where there is none.
#[tactic(auto, unfolding(crate::specs::Pool::second_width))]
fn second_width(tag: u8) -> usize
    ensures { result ≡ second_width tag }
{
    if tag <= 4 {
        return 0;
    }
    if tag <= 6 {
        return 4;
    }
    if tag <= 8 {
        return 0;
    }
    if tag <= 15 {
        return 2;
    }
    if tag <= 16 {
        return 0;
    }
    if tag <= 18 {
        return 2;
    }
    0
}

// Whether a tag is that of a long or a double, which takes two pool numbers.
fn is_wide(tag: u8) -> bool
    ensures { result ≡ wide tag }
{
    if tag == 5 {
        return true;
    }
    if tag == 6 {
        return true;
    }
    false
}

// Whether there is such a tag, where so many pool numbers are left behind the entry's own.
fn is_right_tag(tag: u8, left: usize) -> bool
    ensures { result ≡ right_tag left tag }
{
    if is_wide(tag) {
        return 0 < left;
    }
    if tag < 3 {
        return tag == 1;
    }
    if tag < 13 {
        return true;
    }
    if tag < 15 {
        return false;
    }
    tag < 21
}

// Two numbers of so many bytes, before a limit.
fn pass_numbers(limit: usize, at: usize, first: usize, second: usize) -> Result<usize, usize>
    requires { at ≤ limit }
    ensures { result ≡ passed_by limit at first second }
{
    if limit - at < first {
        return Err(at);
    }
    let behind = at + first;
    if limit - behind < second {
        return Err(behind);
    }
    Ok(behind + second)
}

// A text in modified UTF-8, from its length number on.
fn read_text(file: &[u8], at: usize) -> Result<usize, usize>
    requires { at ≤ length file.now }
    ensures { result ≡ run_of (read_by (entry_format (length file.now) 1) file.now at) }
{
    if file.len() - at < 2 {
        return Err(at);
    }
    let size = read_u16(file, at);
    let start = at + 2;
    if file.len() - start < size {
        return Err(at);
    }
    let end = start + size;
    if is_modified(&file[start..end]) {
        return Ok(end);
    }
    Err(at)
}

// An entry, from its tag on, where so many pool numbers are left behind its own.
fn read_entry(file: &[u8], at: usize, left: usize) -> Result<usize, usize>
    ensures { result ≡ run_of (read_by (tagged_format (length file.now) left) file.now at) }
{
    if file.len() <= at {
        return Err(at);
    }
    let tag = file[at];
    if is_right_tag(tag, left) {
        let start = at + 1;
        if tag == 1 {
            return read_text(file, start);
        }
        return pass_numbers(file.len(), start, first_width(tag), second_width(tag));
    }
    Err(at)
}

// Zeroes the lent table.
fn clear(table: &mut [usize])
    ensures { table.new ≡ replicate (length table.old) 0 }
{
    table.fill(0);
}

// Keeps a place, where the table has its cell.
fn keep(table: &mut [usize], number: usize, place: usize)
    ensures { table.new ≡ set table.old number place }
{
    if number < table.len() {
        table[number] = place;
    }
}

// Reads a pool with so many numbers, 0 among them, from its first tag on. The table's cell of a number takes the place of its entry, and 0
// where the number has none; what the table has no room for is judged and not kept.
pub fn read_pool(file: &[u8], count: usize, table: &mut [usize]) -> Result<usize, usize>
    ensures answers { result ≡ run_of (read_by (pool_format (length file.now) (count - 1) false) file.now 10) }
    ensures keeps { table.new ≡ placed (length table.old) (places_in file.now count) }
{
    clear(table);
    let mut at: usize = 10;
    let mut behind_wide = false;
    for number in 1..count {
        if behind_wide {
            behind_wide = false;
        } else {
            let next = read_entry(file, at, count - number - 1)?;
            keep(table, number, at);
            behind_wide = is_wide(byte_at(file, at));
            at = next;
        }
    }
    Ok(at)
}
