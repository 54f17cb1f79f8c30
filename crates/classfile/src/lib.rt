// A class file (JVMS 4.1), judged whole by the format. A lent table takes the places of the constant pool's entries.
// A run of items answers the place after its last item, or the place of the first wrong one.
#![tactic(auto)]

ghost use Rattle.std.specs.Prelude.{◌≡◌, ◌≤◌, length};
ghost use Rattle.basics.specs.Bytes.{u16_at};
ghost use Rattle.entries.specs.Entries.{names_by};
ghost use Rattle.format.specs.Format.{read_by};
ghost use Rattle.format.specs.Items.{run_of};
ghost use Rattle.classformat.specs.ClassFile.{start_format, head_format, fields_format, end_format, methods_format, rest_format, class_format};
ghost use Rattle.classfile.specs.Class.{start_told, methods_told, class_told, start_table, class_by};

use attributes::{read_attributes, read_fields, read_interfaces};
use format::{read_u2, read_u4};
use methods::read_methods;
use pool::read_pool;

// The first four bytes of every class file.
const MAGIC: usize = 0xcafebabe;

// The start of a class file: its major version, and the place after its constant pool.
#[derive(Clone, Copy)]
pub struct StartPlace {
    pub major: usize,
    pub next: usize,
}

// The methods of a class file: where the first one stands, and how many they are.
#[derive(Clone, Copy)]
pub struct MethodsPlace {
    pub from: usize,
    pub count: usize,
}

// A class file: its major version, where its first method stands, and how many methods there are.
#[derive(Clone, Copy)]
pub struct ClassPlace {
    pub major: usize,
    pub from: usize,
    pub count: usize,
}

// Magic, version and constant pool.
fn read_start(file: &[u8], table: &mut [usize]) -> Result<StartPlace, usize>
    ensures answers { result ≡ start_told (read_by (start_format (length file.now)) file.now 0) }
    ensures keeps { table.new ≡ start_table file.now table.old }
{
    let limit = file.len();
    let Some((magic, minor_at)) = read_u4(file, 0, limit) else {
        return Err(0);
    };
    if magic == MAGIC {
        let Some((_, major_at)) = read_u2(file, minor_at, limit) else {
            return Err(minor_at);
        };
        let Some((major, count_at)) = read_u2(file, major_at, limit) else {
            return Err(major_at);
        };
        let Some((count, _)) = read_u2(file, count_at, limit) else {
            return Err(count_at);
        };
        if 0 < count {
            let next = read_pool(file, count, table)?;
            return Ok(StartPlace { major, next });
        }
        return Err(count_at);
    }
    Err(0)
}

// What stands between the constant pool and the fields.
fn read_head(file: &[u8], at: usize, limit: usize) -> Result<usize, usize>
    ensures { result ≡ run_of (read_by (head_format limit) file.now at) }
{
    let Some((_, this_at)) = read_u2(file, at, limit) else {
        return Err(at);
    };
    let Some((_, super_at)) = read_u2(file, this_at, limit) else {
        return Err(this_at);
    };
    let Some((_, count_at)) = read_u2(file, super_at, limit) else {
        return Err(super_at);
    };
    let Some((count, from)) = read_u2(file, count_at, limit) else {
        return Err(count_at);
    };
    read_interfaces(file, from, count, limit)
}

// The fields, from their count on.
fn read_field_table(file: &[u8], table: &[usize], at: usize, limit: usize) -> Result<usize, usize>
    ensures { result ≡ run_of (read_by (fields_format (names_by file.now table.now) limit) file.now at) }
{
    let Some((count, from)) = read_u2(file, at, limit) else {
        return Err(at);
    };
    read_fields(file, table, from, count, limit)
}

// The attributes of the class, from their count on, behind which nothing stands.
fn read_end(file: &[u8], table: &[usize], at: usize, limit: usize) -> Result<usize, usize>
    ensures { result ≡ run_of (read_by (end_format (names_by file.now table.now) limit) file.now at) }
{
    let Some((count, from)) = read_u2(file, at, limit) else {
        return Err(at);
    };
    let next = read_attributes(file, table, from, count, limit)?;
    if next < limit {
        return Err(next);
    }
    Ok(next)
}

// The methods, from their count on, and what stands behind them.
fn read_method_table(
    file: &[u8],
    table: &[usize],
    at: usize,
    limit: usize,
) -> Result<MethodsPlace, usize>
    ensures { result ≡ methods_told (read_by (methods_format (names_by file.now table.now) limit) file.now at) }
{
    let Some((count, from)) = read_u2(file, at, limit) else {
        return Err(at);
    };
    let next = read_methods(file, table, from, count, limit)?;
    read_end(file, table, next, limit)?;
    Ok(MethodsPlace { from, count })
}

// What stands behind the constant pool.
fn read_rest(file: &[u8], table: &[usize], at: usize, limit: usize) -> Result<MethodsPlace, usize>
    ensures { result ≡ methods_told (read_by (rest_format (names_by file.now table.now) limit) file.now at) }
{
    let fields_at = read_head(file, at, limit)?;
    let methods_at = read_field_table(file, table, fields_at, limit)?;
    read_method_table(file, table, methods_at, limit)
}

// Reads a class file, or answers the place of its first wrong item. With a cell for each pool number the answer is the format's, and where the file is right the table then serves its pool.
// With fewer cells, a number that has none leads to nothing.
pub fn read_class(file: &[u8], table: &mut [usize]) -> Result<ClassPlace, usize>
    ensures shows { result ≡ class_told (read_by (class_by file.now table.new) file.now 0) }
    ensures keeps { table.new ≡ start_table file.now table.old }
    ensures answers { u16_at file.now 8 ≤ length table.old →
        result ≡ class_told (read_by (class_format file.now) file.now 0) }
{
    let start = read_start(file, table)?;
    let methods = read_rest(file, table, start.next, file.len())?;
    Ok(ClassPlace {
        major: start.major,
        from: methods.from,
        count: methods.count,
    })
}
