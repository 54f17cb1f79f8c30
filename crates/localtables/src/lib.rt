// The local records of a Code (JVMS 4.7.13), searched where they stand in the class file. Its tables are judged first, and then searched table
// by table, in file order. Each function that is public takes any file, any table of the pool's places, any place and any limit.
#![tactic(auto)]

ghost use Rattle.std.specs.Prelude.{List, ◌≡◌, ℕ, ◌<◌, length};
ghost use Rattle.classformat.specs.Contents.{Local};
ghost use Rattle.classformat.specs.ClassFile.{joined, local_format, code_attribute_format, code_tables_format};
ghost use Rattle.entries.specs.Entries.{names_by};
ghost use Rattle.format.specs.Format.{times, read_by, right};
ghost use Rattle.localtables.specs.Locals.{first_local, local_told, count_told, RecordsAt, AttributesAt};

use attributes::pass_over;
use bodies::{read_handlers, read_local, read_tables};
use entries::is_named;
use format::{read_u2, read_window};
use search::covers_load;

// The local record that names a local at an instruction: where the local is in scope and for how many bytes, and the pool number of its
// name.
#[derive(Clone, Copy)]
pub struct LocalFound {
    pub start: usize,
    pub size: usize,
    pub name: usize,
}

// The local records of one attribute of a Code, none where it is no local table: where they start, how many they are, and where the
// attribute ends.
#[derive(Clone, Copy)]
pub struct RecordsPlace {
    pub from: usize,
    pub count: usize,
    pub stop: usize,
}

// The attributes of a Code: where they start, and how many they are.
#[derive(Clone, Copy)]
pub struct AttributesPlace {
    pub from: usize,
    pub count: usize,
}

// The first of so many records that is of a slot and whose window holds an index.
fn search_records(
    file: &[u8],
    table: &[usize],
    records: RecordsPlace,
    slot: usize,
    load: usize,
) -> Option<LocalFound>
    ensures { (locals : List Local) (end : ℕ) →
        read_by (times records.count (local_format (names_by file.now table.now) records.stop))
        file.now records.from ≡ right locals end →
        result ≡ first_local locals slot load }
{
    let limit = records.stop;
    let mut at = records.from;
    for _ in 0..records.count {
        let Ok(local) = read_local(file, table, at, limit) else {
            return None;
        };
        if covers_load(local.start, local.size, local.slot, slot, load) {
            return Some(LocalFound {
                start: local.start,
                size: local.size,
                name: local.name,
            });
        }
        at = local.next;
    }
    None
}

// The local records of the attribute at a place.
fn records_at(file: &[u8], table: &[usize], at: usize, limit: usize) -> RecordsPlace
    ensures { RecordsAt (names_by file.now table.now) limit file.now at result }
{
    let none = RecordsPlace {
        from: at,
        count: 0,
        stop: at,
    };
    let Some((name, length_at)) = read_u2(file, at, limit) else {
        return none;
    };
    if is_named(file, table, name, b"LocalVariableTable") {
        let Some((start, stop)) = read_window(file, length_at, limit) else {
            return none;
        };
        let Some((count, from)) = read_u2(file, start, stop) else {
            return none;
        };
        return RecordsPlace { from, count, stop };
    }
    let Ok(stop) = pass_over(file, length_at, limit) else {
        return none;
    };
    RecordsPlace {
        from: stop,
        count: 0,
        stop,
    }
}

// The first record of so many attributes that is of a slot and whose window holds an index.
fn search_attributes(
    file: &[u8],
    table: &[usize],
    attributes: AttributesPlace,
    limit: usize,
    slot: usize,
    load: usize,
) -> Option<LocalFound>
    ensures { (tables : List (List Local)) (end : ℕ) →
        read_by (times attributes.count (code_attribute_format (names_by file.now table.now) limit))
        file.now attributes.from ≡ right tables end →
        result ≡ first_local (joined tables) slot load }
{
    let mut at = attributes.from;
    for _ in 0..attributes.count {
        let records = records_at(file, table, at, limit);
        match search_records(file, table, records, slot, load) {
            Some(found) => {
                return Some(found);
            }
            None => {}
        }
        at = records.stop;
    }
    None
}

// The attributes of the Code whose instructions end at a place, none where its tables are wrong.
fn attributes_at(file: &[u8], table: &[usize], at: usize, limit: usize) -> AttributesPlace
    ensures { AttributesAt (names_by file.now table.now) limit file.now at result }
{
    let none = AttributesPlace { from: at, count: 0 };
    let Ok(_) = read_tables(file, table, at, limit) else {
        return none;
    };
    let Some((handlers, handlers_at)) = read_u2(file, at, limit) else {
        return none;
    };
    let Ok(count_at) = read_handlers(file, handlers_at, handlers, limit) else {
        return none;
    };
    let Some((count, from)) = read_u2(file, count_at, limit) else {
        return none;
    };
    AttributesPlace { from, count }
}

// The local record that names the local of a slot at an instruction: the first one of the Code whose instructions end at a place.
pub fn find_local(
    file: &[u8],
    table: &[usize],
    at: usize,
    limit: usize,
    slot: usize,
    load: usize,
) -> Option<LocalFound>
    ensures { result ≡ local_told slot load (read_by (code_tables_format (names_by file.now table.now) limit)
        file.now at) }
{
    search_attributes(
        file,
        table,
        attributes_at(file, table, at, limit),
        limit,
        slot,
        load,
    )
}

// How many local records so many attributes have: at most 65,535 each, so that their sum stays far below the largest number.
fn count_attributes(
    file: &[u8],
    table: &[usize],
    attributes: AttributesPlace,
    limit: usize,
) -> usize
    requires { attributes.count < 65536 }
    ensures { (tables : List (List Local)) (end : ℕ) →
        read_by (times attributes.count (code_attribute_format (names_by file.now table.now) limit))
        file.now attributes.from ≡ right tables end →
        result ≡ length (joined tables) }
{
    let mut at = attributes.from;
    let mut total = 0;
    for _ in 0..attributes.count {
        let records = records_at(file, table, at, limit);
        total += records.count;
        at = records.stop;
    }
    total
}

// How many local records the Code has whose instructions end at a place; none where its tables are wrong.
pub fn count_locals(file: &[u8], table: &[usize], at: usize, limit: usize) -> usize
    ensures { result ≡ count_told (read_by (code_tables_format (names_by file.now table.now) limit)
        file.now at) }
{
    count_attributes(file, table, attributes_at(file, table, at, limit), limit)
}
