// Class names, as the messages print them (document 01, "Action and cause").
#![tactic(auto)]

ghost use Rattle.std.specs.Prelude.{◌≡◌};
ghost use Rattle.text.specs.Writing.{Written};
ghost use Rattle.classname.specs.ClassName.{dot_of, dotted, starts_with, class_name};

use check::same;
use text::put;

fn dot(byte: u8) -> u8
    ensures { result ≡ dot_of byte }
{
    if byte == b'/' { b'.' } else { byte }
}

// Writes a name over the start of the output, with dots for slashes. Answers its length.
fn put_dotted(out: &mut [u8], name: &[u8]) -> usize
    ensures { Written 0 (dotted name.now) out.old result out.new }
{
    let room = name.len().min(out.len());
    for i in 0..room {
        out[i] = dot(name[i]);
    }
    name.len()
}

fn starts_with_bracket(name: &[u8]) -> bool
    ensures { result ≡ starts_with 91 name.now }
{
    if name.len() == 0 {
        return false;
    }
    name[0] == b'['
}

// Writes a class name over the start of the output. Answers its length.
pub fn put_class_name(out: &mut [u8], name: &[u8]) -> usize
    ensures { Written 0 (class_name name.now) out.old result out.new }
{
    if same(name, b"java/lang/String") {
        return put(out, b"String");
    }
    if same(name, b"java/lang/Object") {
        return put(out, b"Object");
    }
    if starts_with_bracket(name) {
        return put(out, name);
    }
    put_dotted(out, name)
}

// Writes a class name from a place on. Answers the place after it.
pub fn put_class_at(out: &mut [u8], at: usize, name: &[u8]) -> usize
    ensures { Written at (class_name name.now) out.old result out.new }
{
    let from = at.min(out.len());
    let n = put_class_name(&mut out[from..], name);
    at.saturating_add(n)
}
