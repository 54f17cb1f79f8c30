// What a pool number of a class file leads to, by a table of the places where the pool's entries stand (JVMS 4.4). Every function takes any
// file, any table and any number: a number that the table has not leads to nothing.
#![tactic(auto)]

ghost use Rattle.std.specs.Prelude.{◌≡◌, ◌≤◌, length, get_or};
ghost use Rattle.classformat.specs.Contents.{leads, is_named, spelled};
ghost use Rattle.entries.specs.Entries.{entry_behind, entry_by, names_by, resolved_by};

use check::same;
use classformat::Entry;
use items::part_at;
use reads::read_u16;

// A member that resolves fully: its kind, and the numbers of its three texts.
#[derive(Clone, Copy)]
pub struct Resolved {
    pub kind: usize,
    pub class: usize,
    pub name: usize,
    pub descriptor: usize,
}

// The place that a table has for a number, 0 where it has none.
fn place_of(table: &[usize], index: usize) -> usize
    ensures { result ≡ get_or table.now index 0 }
{
    if index < table.len() {
        return table[index];
    }
    0
}

// The entry whose tag stands before a place.
fn entry_behind(file: &[u8], tag: u8, at: usize) -> Entry
    requires { at ≤ length file.now }
    ensures { result ≡ entry_behind file.now tag at }
{
    match tag {
        1 => Entry::Text {
            start: at + 2,
            size: read_u16(file, at),
        },
        7 => Entry::Class {
            name: read_u16(file, at),
        },
        9 => Entry::Member {
            kind: 0,
            class: read_u16(file, at),
            named: read_u16(file, at + 2),
        },
        10 | 11 => Entry::Member {
            kind: 1,
            class: read_u16(file, at),
            named: read_u16(file, at + 2),
        },
        12 => Entry::Named {
            name: read_u16(file, at),
            descriptor: read_u16(file, at + 2),
        },
        _ => Entry::Other,
    }
}

// The entry with a number.
pub fn entry_at(file: &[u8], table: &[usize], index: usize) -> Entry
    ensures { result ≡ entry_by file.now table.now index }
{
    let place = place_of(table, index);
    if place == 0 {
        return Entry::Nothing;
    }
    if place < file.len() {
        return entry_behind(file, file[place], place + 1);
    }
    Entry::Nothing
}

// Whether a number leads to a name.
pub fn is_name(file: &[u8], table: &[usize], index: usize) -> bool
    ensures { result ≡ leads (names_by file.now table.now index) }
{
    let entry = entry_at(file, table, index);
    match entry {
        Entry::Text { start: _, size: _ } => true,
        _ => false,
    }
}

// Whether a number leads to this name.
pub fn is_named(file: &[u8], table: &[usize], index: usize, wanted: &[u8]) -> bool
    ensures { result ≡ is_named wanted.now (names_by file.now table.now index) }
{
    let Entry::Text { start, size } = entry_at(file, table, index) else {
        return false;
    };
    same(part_at(file, start, size), wanted)
}

// The bytes of the name that a number leads to, none where it leads to none.
pub fn find_name<'a>(file: &'a [u8], table: &[usize], index: usize) -> &'a [u8]
    ensures { result.now ≡ spelled (names_by file.now table.now index) }
{
    let Entry::Text { start, size } = entry_at(file, table, index) else {
        return &file[..0];
    };
    part_at(file, start, size)
}

// The member with a number, where it resolves fully.
pub fn find_member(file: &[u8], table: &[usize], index: usize) -> Option<Resolved>
    ensures { result ≡ resolved_by (entry_by file.now table.now) index }
{
    let Entry::Member { kind, class, named } = entry_at(file, table, index) else {
        return None;
    };
    let Entry::Class { name: owner } = entry_at(file, table, class) else {
        return None;
    };
    let Entry::Named { name, descriptor } = entry_at(file, table, named) else {
        return None;
    };
    let Entry::Text { start: _, size: _ } = entry_at(file, table, owner) else {
        return None;
    };
    let Entry::Text { start: _, size: _ } = entry_at(file, table, name) else {
        return None;
    };
    let Entry::Text { start: _, size: _ } = entry_at(file, table, descriptor) else {
        return None;
    };
    Some(Resolved {
        kind,
        class: owner,
        name,
        descriptor,
    })
}
