// Texts of a class file turned to UTF-8 and laid out as a case has them (document 02, request 3): a text, a member and a local record of
// a case, and a signature. A function that writes answers the place after its item, also where the output ends before it, so an item is
// measured by writing it to no output.
#![tactic(auto)]

ghost use Rattle.std.specs.Prelude.{◌≡◌, length};
ghost use Rattle.items.specs.Text.{text_bytes};
ghost use Rattle.cases.specs.LaidOut.{member_bytes, record_bytes};
ghost use Rattle.text.specs.Writing.{Written};
ghost use Rattle.utf8.specs.Turning.{turned};
ghost use Rattle.classtexts.specs.Texts.{turned_member, turned_local, signature_of};

use laying::put_number_at;
use text::put_at;
use utf8::put_turned_at;

// How many bytes a text has when it is turned: it is written to no output.
fn turned_length(text: &[u8]) -> usize
    ensures { result ≡ length (turned text.now) }
{
    let mut nothing = [0u8; 0];
    put_turned_at(&mut nothing, 0, text)
}

// Writes a text from a place on, turned: its length, then its bytes. Answers the place after it.
pub fn put_turned_text_at(out: &mut [u8], at: usize, text: &[u8]) -> usize
    ensures { Written at (text_bytes (turned text.now)) out.old result out.new }
{
    let size = turned_length(text);
    let start = put_number_at(out, at, size);
    put_turned_at(out, start, text)
}

// Writes a member from a place on: its pool index, its kind, and its three texts, turned. Answers the place after it.
pub fn put_member_at(
    out: &mut [u8],
    at: usize,
    index: usize,
    kind: usize,
    class: &[u8],
    name: &[u8],
    descriptor: &[u8],
) -> usize
    ensures { Written at (member_bytes (turned_member index kind class.now name.now descriptor.now)) out.old result out.new }
{
    let kind_at = put_number_at(out, at, index);
    let class_at = put_number_at(out, kind_at, kind);
    let name_at = put_turned_text_at(out, class_at, class);
    let descriptor_at = put_turned_text_at(out, name_at, name);
    put_turned_text_at(out, descriptor_at, descriptor)
}

// Writes a local record from a place on: where its local is in scope, for how many bytes, its slot, and its name, turned. Answers the
// place after it.
pub fn put_record_at(
    out: &mut [u8],
    at: usize,
    start: usize,
    size: usize,
    slot: usize,
    name: &[u8],
) -> usize
    ensures { Written at (record_bytes (turned_local start size slot name.now)) out.old result out.new }
{
    let size_at = put_number_at(out, at, start);
    let slot_at = put_number_at(out, size_at, size);
    let name_at = put_number_at(out, slot_at, slot);
    put_turned_text_at(out, name_at, name)
}

// Writes a signature from a place on: a method's name, a colon and its descriptor, turned. Answers the place after it.
pub fn put_signature_at(out: &mut [u8], at: usize, name: &[u8], descriptor: &[u8]) -> usize
    ensures { Written at (signature_of name.now descriptor.now) out.old result out.new }
{
    let colon_at = put_turned_at(out, at, name);
    let descriptor_at = put_at(out, colon_at, b":");
    put_turned_at(out, descriptor_at, descriptor)
}
