// Attributes of a class file, passed over by their length (JVMS 4.7), its fields (JVMS 4.5) and its interfaces (JVMS 4.1). Every function
// takes any file, any table of the pool's places, any place and any limit, and answers by the format: the place after its last item, or the
// place of the first wrong one.
#![tactic(auto)]

ghost use Rattle.std.specs.Prelude.{◌≡◌};
ghost use Rattle.entries.specs.Entries.{names_by};
ghost use Rattle.format.specs.Format.{times, read_by};
ghost use Rattle.format.specs.Items.{run_of};
ghost use Rattle.classformat.specs.ClassFile.{passed_over, attribute_format, field_format, interface_format};

use entries::is_name;
use format::{read_u2, read_window};

// What a length counts, passed over.
pub fn pass_over(file: &[u8], at: usize, limit: usize) -> Result<usize, usize>
    ensures { result ≡ run_of (read_by (passed_over limit (tt {0})) file.now at) }
{
    let Some((_, stop)) = read_window(file, at, limit) else {
        return Err(at);
    };
    Ok(stop)
}

// An attribute.
fn read_attribute(file: &[u8], table: &[usize], at: usize, limit: usize) -> Result<usize, usize>
    ensures { result ≡ run_of (read_by (attribute_format (names_by file.now table.now) limit) file.now at) }
{
    let Some((name, length_at)) = read_u2(file, at, limit) else {
        return Err(at);
    };
    if is_name(file, table, name) {
        return pass_over(file, length_at, limit);
    }
    Err(at)
}

// So many attributes.
pub fn read_attributes(
    file: &[u8],
    table: &[usize],
    from: usize,
    count: usize,
    limit: usize,
) -> Result<usize, usize>
    ensures { result ≡ run_of (read_by (times count (attribute_format (names_by file.now table.now) limit))
        file.now from) }
{
    let mut at = from;
    for _ in 0..count {
        at = read_attribute(file, table, at, limit)?;
    }
    Ok(at)
}

// A field.
fn read_field(file: &[u8], table: &[usize], at: usize, limit: usize) -> Result<usize, usize>
    ensures { result ≡ run_of (read_by (field_format (names_by file.now table.now) limit) file.now at) }
{
    let Some((_, name_at)) = read_u2(file, at, limit) else {
        return Err(at);
    };
    let Some((_, descriptor_at)) = read_u2(file, name_at, limit) else {
        return Err(name_at);
    };
    let Some((_, count_at)) = read_u2(file, descriptor_at, limit) else {
        return Err(descriptor_at);
    };
    let Some((count, from)) = read_u2(file, count_at, limit) else {
        return Err(count_at);
    };
    read_attributes(file, table, from, count, limit)
}

// So many fields.
pub fn read_fields(
    file: &[u8],
    table: &[usize],
    from: usize,
    count: usize,
    limit: usize,
) -> Result<usize, usize>
    ensures { result ≡ run_of (read_by (times count (field_format (names_by file.now table.now) limit))
        file.now from) }
{
    let mut at = from;
    for _ in 0..count {
        at = read_field(file, table, at, limit)?;
    }
    Ok(at)
}

// So many interfaces.
pub fn read_interfaces(file: &[u8], from: usize, count: usize, limit: usize) -> Result<usize, usize>
    ensures { result ≡ run_of (read_by (times count (interface_format limit)) file.now from) }
{
    let mut at = from;
    for _ in 0..count {
        let Some((_, next)) = read_u2(file, at, limit) else {
            return Err(at);
        };
        at = next;
    }
    Ok(at)
}
