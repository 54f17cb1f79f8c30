// The texts of a case (document 01, "The case"), and parts of its bytes. No copy is made.
// Every function takes any bytes and any place. What cannot be read is answered, never assumed away.
#![tactic(auto)]

ghost use Rattle.std.specs.Prelude.{◌≡◌, length};
ghost use Rattle.items.specs.Text.{text_at, text_within, part_at, text_part, after_text, class_of, name_of, descriptor_of};

use number::case_number;

// The text at a place: a length number and that many bytes. It is where its bytes start, behind the length number, and how
// many they are.
#[tactic(auto, unfolding(crate::specs::Text::text_at))]
pub fn read_text(bytes: &[u8], at: usize) -> Option<(usize, usize)>
    ensures { (result ≡ text_at bytes.now at) × text_within (length bytes.now) at result }
{
    let (length, start) = case_number(bytes, at)?;
    if length <= bytes.len() - start {
        return Some((start, length));
    }
    None
}

// The part of a case at a place, as far as the case reaches.
pub fn part_at<'a>(bytes: &'a [u8], start: usize, size: usize) -> &'a [u8]
    ensures { result.now ≡ part_at bytes.now start size }
{
    if bytes.len() <= start {
        return &bytes[..0];
    }
    if bytes.len() - start < size {
        return &bytes[start..];
    }
    let end = start + size;
    &bytes[start..end]
}

// The bytes of the text at a place, none where there is no text.
#[tactic(auto, unfolding(crate::specs::Text::text_part))]
fn text_part<'a>(texts: &'a [u8], at: usize) -> &'a [u8]
    ensures { result.now ≡ text_part texts.now at }
{
    let Some((start, length)) = read_text(texts, at) else {
        return &texts[..0];
    };
    part_at(texts, start, length)
}

// The place behind the text at a place, the end where there is no text.
#[tactic(auto, unfolding(crate::specs::Text::after_text))]
fn after_text(texts: &[u8], at: usize) -> usize
    ensures { result ≡ after_text texts.now at }
{
    let Some((start, length)) = read_text(texts, at) else {
        return texts.len();
    };
    start + length
}

// The class of a member, of the part that holds its texts.
#[tactic(auto, unfolding(crate::specs::Text::class_of))]
pub fn class_of<'a>(texts: &'a [u8]) -> &'a [u8]
    ensures { result.now ≡ class_of texts.now }
{
    text_part(texts, 0)
}

// The name of a member.
#[tactic(auto, unfolding(crate::specs::Text::name_of))]
pub fn name_of<'a>(texts: &'a [u8]) -> &'a [u8]
    ensures { result.now ≡ name_of texts.now }
{
    let name_at = after_text(texts, 0);
    text_part(texts, name_at)
}

// The descriptor of a member.
#[tactic(auto, unfolding(crate::specs::Text::descriptor_of))]
pub fn descriptor_of<'a>(texts: &'a [u8]) -> &'a [u8]
    ensures { result.now ≡ descriptor_of texts.now }
{
    let name_at = after_text(texts, 0);
    let descriptor_at = after_text(texts, name_at);
    text_part(texts, descriptor_at)
}
