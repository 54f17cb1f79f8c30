// The methods of a class file (JVMS 4.6), judged by the format. Every function takes any file, any table of the pool's places, any place and
// any limit.
// A run of items answers the place after its last item, or the place of the first wrong one.
#![tactic(auto)]

ghost use Rattle.std.specs.Prelude.{◌≡◌};
ghost use Rattle.entries.specs.Entries.{names_by};
ghost use Rattle.format.specs.Format.{times, each, read_by};
ghost use Rattle.format.specs.Items.{run_of};
ghost use Rattle.classformat.specs.Contents.{Body, bodiless};
ghost use Rattle.classformat.specs.ClassFile.{passed_over, coded_format, method_attribute_format, method_format};
ghost use Rattle.methods.specs.Method.{body_place, body_told, method_told, method_behind};

use attributes::pass_over;
use bodies::{CodePlace, read_code};
use entries::{is_name, is_named};
use format::{read_u2, read_window};

// A method: its flags, the pool numbers of its name and of its descriptor, its code where it has one, and the place after it.
#[derive(Clone, Copy)]
pub struct MethodPlace {
    pub flags: usize,
    pub name: usize,
    pub descriptor: usize,
    pub body: Option<CodePlace>,
    pub next: usize,
}

// A Code, from its attribute's length on.
fn read_coded(
    file: &[u8],
    table: &[usize],
    at: usize,
    limit: usize,
) -> Result<(Option<CodePlace>, usize), usize>
    ensures { result ≡ body_told (read_by (coded_format (names_by file.now table.now) limit) file.now at) }
{
    let Some((start, stop)) = read_window(file, at, limit) else {
        return Err(at);
    };
    let (code, next) = read_code(file, table, start, stop)?;
    Ok((Some(code), next))
}

// An attribute that is no Code, from its length on.
fn pass_attribute(
    file: &[u8],
    at: usize,
    limit: usize,
    body: Option<CodePlace>,
) -> Result<(Option<CodePlace>, usize), usize>
    ensures { (before : Body) → body_place before ≡ body →
        result ≡ body_told (read_by (passed_over limit before) file.now at) }
{
    let next = pass_over(file, at, limit)?;
    Ok((body, next))
}

// An attribute, behind those that have this code: a second Code's name is wrong.
fn read_method_attribute(
    file: &[u8],
    table: &[usize],
    at: usize,
    limit: usize,
    body: Option<CodePlace>,
) -> Result<(Option<CodePlace>, usize), usize>
    ensures { (before : Body) → body_place before ≡ body →
        result ≡ body_told (read_by (method_attribute_format (names_by file.now table.now) limit before) file.now at) }
{
    let Some((name, length_at)) = read_u2(file, at, limit) else {
        return Err(at);
    };
    if is_name(file, table, name) {
        if is_named(file, table, name, b"Code") {
            return match body {
                None => read_coded(file, table, length_at, limit),
                Some(_) => Err(at),
            };
        }
        return pass_attribute(file, length_at, limit, body);
    }
    Err(at)
}

// So many attributes of a method: the code that they have, where one does, and the place after them; or the place of the first wrong item.
fn read_method_attributes(
    file: &[u8],
    table: &[usize],
    from: usize,
    count: usize,
    limit: usize,
) -> Result<(Option<CodePlace>, usize), usize>
    ensures { result ≡ body_told (read_by (each count (method_attribute_format (names_by file.now table.now) limit) bodiless)
        file.now from) }
{
    let mut at = from;
    let mut body = None;
    for _ in 0..count {
        let (found, next) = read_method_attribute(file, table, at, limit, body)?;
        body = found;
        at = next;
    }
    Ok((body, at))
}

// A method, or the place of its first wrong item.
pub fn read_method(
    file: &[u8],
    table: &[usize],
    at: usize,
    limit: usize,
) -> Result<MethodPlace, usize>
    ensures { result ≡ method_told (read_by (method_format (names_by file.now table.now) limit) file.now at) }
{
    let Some((flags, name_at)) = read_u2(file, at, limit) else {
        return Err(at);
    };
    let Some((name, descriptor_at)) = read_u2(file, name_at, limit) else {
        return Err(name_at);
    };
    if is_name(file, table, name) {
        let Some((descriptor, count_at)) = read_u2(file, descriptor_at, limit) else {
            return Err(descriptor_at);
        };
        if is_name(file, table, descriptor) {
            let Some((count, from)) = read_u2(file, count_at, limit) else {
                return Err(count_at);
            };
            let (body, next) = read_method_attributes(file, table, from, count, limit)?;
            return Ok(MethodPlace {
                flags,
                name,
                descriptor,
                body,
                next,
            });
        }
        return Err(descriptor_at);
    }
    Err(name_at)
}

// So many methods.
pub fn read_methods(
    file: &[u8],
    table: &[usize],
    from: usize,
    count: usize,
    limit: usize,
) -> Result<usize, usize>
    ensures { result ≡ run_of (read_by (times count (method_format (names_by file.now table.now) limit))
        file.now from) }
{
    let mut at = from;
    for _ in 0..count {
        let method = read_method(file, table, at, limit)?;
        at = method.next;
    }
    Ok(at)
}

// The method behind so many others.
pub fn find_method(
    file: &[u8],
    table: &[usize],
    from: usize,
    place: usize,
    limit: usize,
) -> Result<MethodPlace, usize>
    ensures { result ≡ method_told (read_by (method_behind place (method_format (names_by file.now table.now) limit))
        file.now from) }
{
    let method_at = read_methods(file, table, from, place, limit)?;
    read_method(file, table, method_at, limit)
}
