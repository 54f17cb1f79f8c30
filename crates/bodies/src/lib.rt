// The Code of a method (JVMS 4.7.3) with its exception table and its local tables (JVMS 4.7.13), judged by the format. Every function takes
// any file, any table of the pool's places, any place and any limit.
// A run of items answers the place after its last item, or the place of the first wrong one.
#![tactic(auto)]

ghost use Rattle.std.specs.Prelude.{◌≡◌};
ghost use Rattle.basics.specs.Choice.{between};
ghost use Rattle.entries.specs.Entries.{names_by};
ghost use Rattle.format.specs.Format.{times, read_by};
ghost use Rattle.format.specs.Items.{run_of};
ghost use Rattle.classformat.specs.ClassFile.{handler_format, local_format, local_table_format, code_attribute_format, code_end_format, code_tables_format, code_format};
ghost use Rattle.bodies.specs.Body.{record_told, code_told};

use attributes::pass_over;
use entries::{is_name, is_named};
use format::{read_u2, read_window};

// The longest code (JVMS 4.7.3).
const LONGEST: usize = 65535;

// A method's code: where its instructions start, how many bytes they are, and where the attribute ends.
#[derive(Clone, Copy)]
pub struct CodePlace {
    pub start: usize,
    pub size: usize,
    pub stop: usize,
}

// An entry of a local table: where its local is in scope and for how many bytes, the pool number of its name, its slot, and the place after
// it.
#[derive(Clone, Copy)]
pub struct LocalPlace {
    pub start: usize,
    pub size: usize,
    pub name: usize,
    pub slot: usize,
    pub next: usize,
}

// Whether instructions can be so many bytes.
fn is_code_length(size: usize) -> bool
    ensures { result ≡ between 1 65535 size }
{
    if 1 <= size {
        return size <= LONGEST;
    }
    false
}

// An entry of an exception table.
fn read_handler(file: &[u8], at: usize, limit: usize) -> Result<usize, usize>
    ensures { result ≡ run_of (read_by (handler_format limit) file.now at) }
{
    let Some((_, end_at)) = read_u2(file, at, limit) else {
        return Err(at);
    };
    let Some((_, handler_at)) = read_u2(file, end_at, limit) else {
        return Err(end_at);
    };
    let Some((_, caught_at)) = read_u2(file, handler_at, limit) else {
        return Err(handler_at);
    };
    let Some((_, next)) = read_u2(file, caught_at, limit) else {
        return Err(caught_at);
    };
    Ok(next)
}

// So many entries of an exception table.
pub fn read_handlers(file: &[u8], from: usize, count: usize, limit: usize) -> Result<usize, usize>
    ensures { result ≡ run_of (read_by (times count (handler_format limit)) file.now from) }
{
    let mut at = from;
    for _ in 0..count {
        at = read_handler(file, at, limit)?;
    }
    Ok(at)
}

// An entry of a local table, or the place of its first wrong item.
pub fn read_local(
    file: &[u8],
    table: &[usize],
    at: usize,
    limit: usize,
) -> Result<LocalPlace, usize>
    ensures { result ≡ record_told (read_by (local_format (names_by file.now table.now) limit) file.now at) }
{
    let Some((start, size_at)) = read_u2(file, at, limit) else {
        return Err(at);
    };
    let Some((size, name_at)) = read_u2(file, size_at, limit) else {
        return Err(size_at);
    };
    let Some((name, descriptor_at)) = read_u2(file, name_at, limit) else {
        return Err(name_at);
    };
    if is_name(file, table, name) {
        let Some((_, slot_at)) = read_u2(file, descriptor_at, limit) else {
            return Err(descriptor_at);
        };
        let Some((slot, next)) = read_u2(file, slot_at, limit) else {
            return Err(slot_at);
        };
        return Ok(LocalPlace {
            start,
            size,
            name,
            slot,
            next,
        });
    }
    Err(name_at)
}

// So many entries of a local table.
fn read_locals(
    file: &[u8],
    table: &[usize],
    from: usize,
    count: usize,
    limit: usize,
) -> Result<usize, usize>
    ensures { result ≡ run_of (read_by (times count (local_format (names_by file.now table.now) limit))
        file.now from) }
{
    let mut at = from;
    for _ in 0..count {
        let local = read_local(file, table, at, limit)?;
        at = local.next;
    }
    Ok(at)
}

// A local table, from its count on, that has to fill its attribute.
fn read_local_table(file: &[u8], table: &[usize], at: usize, limit: usize) -> Result<usize, usize>
    ensures { result ≡ run_of (read_by (local_table_format (names_by file.now table.now) limit) file.now at) }
{
    let Some((count, from)) = read_u2(file, at, limit) else {
        return Err(at);
    };
    let next = read_locals(file, table, from, count, limit)?;
    if next < limit {
        return Err(next);
    }
    Ok(next)
}

// An attribute of a Code.
fn read_code_attribute(
    file: &[u8],
    table: &[usize],
    at: usize,
    limit: usize,
) -> Result<usize, usize>
    ensures { result ≡ run_of (read_by (code_attribute_format (names_by file.now table.now) limit) file.now at) }
{
    let Some((name, length_at)) = read_u2(file, at, limit) else {
        return Err(at);
    };
    if is_name(file, table, name) {
        if is_named(file, table, name, b"LocalVariableTable") {
            let Some((start, stop)) = read_window(file, length_at, limit) else {
                return Err(length_at);
            };
            return read_local_table(file, table, start, stop);
        }
        return pass_over(file, length_at, limit);
    }
    Err(at)
}

// So many attributes of a Code.
fn read_code_attributes(
    file: &[u8],
    table: &[usize],
    from: usize,
    count: usize,
    limit: usize,
) -> Result<usize, usize>
    ensures { result ≡ run_of (read_by (times count (code_attribute_format (names_by file.now table.now) limit))
        file.now from) }
{
    let mut at = from;
    for _ in 0..count {
        at = read_code_attribute(file, table, at, limit)?;
    }
    Ok(at)
}

// The attributes of a Code, from their count on, which have to fill it.
pub fn read_code_end(file: &[u8], table: &[usize], at: usize, limit: usize) -> Result<usize, usize>
    ensures { result ≡ run_of (read_by (code_end_format (names_by file.now table.now) limit) file.now at) }
{
    let Some((count, from)) = read_u2(file, at, limit) else {
        return Err(at);
    };
    let next = read_code_attributes(file, table, from, count, limit)?;
    if next < limit {
        return Err(next);
    }
    Ok(next)
}

// The tables of a Code, behind its instructions.
pub fn read_tables(file: &[u8], table: &[usize], at: usize, limit: usize) -> Result<usize, usize>
    ensures { result ≡ run_of (read_by (code_tables_format (names_by file.now table.now) limit) file.now at) }
{
    let Some((count, from)) = read_u2(file, at, limit) else {
        return Err(at);
    };
    let next = read_handlers(file, from, count, limit)?;
    read_code_end(file, table, next, limit)
}

// A Code, from behind its attribute's length to a limit, which is where the attribute ends, and the place after it; or the place of its first
// wrong item.
pub fn read_code(
    file: &[u8],
    table: &[usize],
    at: usize,
    limit: usize,
) -> Result<(CodePlace, usize), usize>
    ensures { result ≡ code_told (read_by (code_format (names_by file.now table.now) limit) file.now at) }
{
    let Some((_, locals_at)) = read_u2(file, at, limit) else {
        return Err(at);
    };
    let Some((_, code_at)) = read_u2(file, locals_at, limit) else {
        return Err(locals_at);
    };
    let Some((start, stop)) = read_window(file, code_at, limit) else {
        return Err(code_at);
    };
    let size = stop.saturating_sub(start);
    if is_code_length(size) {
        let next = read_tables(file, table, stop, limit)?;
        return Ok((
            CodePlace {
                start,
                size,
                stop: limit,
            },
            next,
        ));
    }
    Err(code_at)
}
