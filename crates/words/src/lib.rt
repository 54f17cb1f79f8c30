// The phrases that a message is made of (document 01, "Action and cause"), written from a place of the output on, and the wordings that
// they have (document 02, request 11). A function that writes answers the place after its text, also where the output ends before it.
#![tactic(auto)]

ghost use Rattle.std.specs.Prelude.{◌≡◌};
ghost use Rattle.text.specs.Writing.{Written};
ghost use Rattle.words.specs.Words.{element_text, quoted, method_text, invoke_text, array_text};
ghost use Rattle.words.specs.Wording.{byte_text, wording_by};

use text::put_at;

// How a message calls the elements of the arrays that `baload` and `bastore` serve: bytes, or bytes and booleans.
#[derive(Clone, Copy)]
pub enum Wording {
    Byte,
    ByteBoolean,
}

// The wording that a number names, 1 or 2; any other names none.
pub fn wording_by(number: usize) -> Option<Wording>
    ensures { result ≡ wording_by number }
{
    match number {
        1 => Some(Wording::Byte),
        2 => Some(Wording::ByteBoolean),
        _ => None,
    }
}

// The word for the elements that `baload` and `bastore` move.
fn put_byte_word_at(out: &mut [u8], at: usize, wording: Wording) -> usize
    ensures { Written at (byte_text wording) out.old result out.new }
{
    match wording {
        Wording::Byte => put_at(out, at, b"byte"),
        Wording::ByteBoolean => put_at(out, at, b"byte/boolean"),
    }
}

// The element type's word, by its place in the order of the opcodes.
pub fn put_element_at(out: &mut [u8], at: usize, wording: Wording, element: usize) -> usize
    ensures { Written at (element_text wording element) out.old result out.new }
{
    match element {
        0 => put_at(out, at, b"int"),
        1 => put_at(out, at, b"long"),
        2 => put_at(out, at, b"float"),
        3 => put_at(out, at, b"double"),
        4 => put_at(out, at, b"object"),
        5 => put_byte_word_at(out, at, wording),
        6 => put_at(out, at, b"char"),
        _ => put_at(out, at, b"short"),
    }
}

// Words, then a name in quotes.
pub fn put_quoted_at(out: &mut [u8], at: usize, words: &[u8], name: &[u8]) -> usize
    ensures { Written at (quoted words.now name.now) out.old result out.new }
{
    let opened = put_at(out, at, words);
    let start = put_at(out, opened, b"\"");
    let end = put_at(out, start, name);
    put_at(out, end, b"\"")
}

// Words, then the element type of an array.
pub fn put_array_at(
    out: &mut [u8],
    at: usize,
    wording: Wording,
    words: &[u8],
    element: usize,
) -> usize
    ensures { Written at (array_text wording words.now element) out.old result out.new }
{
    let start = put_at(out, at, words);
    let end = put_element_at(out, start, wording, element);
    put_at(out, end, b" array")
}

// The class and the name of a method, of the part that holds its texts.
pub fn put_method_at(out: &mut [u8], at: usize, texts: &[u8]) -> usize
    ensures { Written at (method_text texts.now) out.old result out.new }
{
    let dot = classname::put_class_at(out, at, items::class_of(texts));
    let name = put_at(out, dot, b".");
    put_at(out, name, items::name_of(texts))
}

// The invocation of a method: its class, its name and its parameter types, of the part that holds its texts.
pub fn put_invoke_at(out: &mut [u8], at: usize, texts: &[u8]) -> usize
    ensures { Written at (invoke_text texts.now) out.old result out.new }
{
    let method = put_at(out, at, b"Cannot invoke \"");
    let open = put_method_at(out, method, texts);
    let params = put_at(out, open, b"(");
    let close = names::put_params_at(out, params, items::descriptor_of(texts));
    put_at(out, close, b")\"")
}
