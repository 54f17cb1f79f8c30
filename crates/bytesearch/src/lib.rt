// The searches of one byte that the readers of descriptors share. Every function takes any text and any index.
#![tactic(auto)]

ghost use Rattle.std.specs.Prelude.{◌≡◌, ◌+◌, drop};
ghost use Rattle.bytesearch.specs.Search.{first_from, run};

// The first place of a byte at or after an index. A place stays: document 01 asks for "a loop whose break gives the semicolon's place or an
// absent mark" ("Expected form in each place"), so this is no `position`.
#[tactic(auto, using(crate::proofs::Search::found_here, crate::proofs::Search::found_later, crate::proofs::Search::found_nowhere))]
pub fn find_byte(text: &[u8], byte: u8, from: usize) -> Option<usize>
    ensures { result ≡ first_from byte text.now from }
{
    let mut at = from;
    loop {
        if text.len() <= at {
            break None;
        }
        if text[at] == byte {
            break Some(at);
        }
        at += 1;
    }
}

// The index after the bytes of one kind that stand in a row from an index on. A place stays: where the run ends is the answer.
#[tactic(auto, using(crate::proofs::Search::run_on, crate::proofs::Search::run_over, crate::proofs::Search::run_past))]
pub fn after_run(text: &[u8], byte: u8, from: usize) -> usize
    ensures { result ≡ from + run byte (drop from text.now) }
{
    let mut at = from;
    while at < text.len() && text[at] == byte {
        at += 1;
    }
    at
}
