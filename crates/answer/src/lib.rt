// What a report answers (document 01, "Numbers returned"; document 02, request 11), and how a message reaches the lent output.
#![tactic(auto)]

ghost use Rattle.std.specs.Prelude.{◌≡◌};
ghost use Rattle.message.specs.Message.{message_text};
ghost use Rattle.answer.specs.Answer.{kind_of, said, Delivered};

use cell::Load;
use fault::Action;
use message::put_message_at;
use words::Wording;

// What a report answers, by document 01's numbers 0 to 5 and document 02's 11. A place stays: README and docs/ name these answers, one for
// each number, and a caller tells each apart.
#[derive(Clone, Copy)]
pub enum Report {
    Message {
        length: usize,
        kind: usize,
        scan: usize,
        block: usize,
    },
    NoMessage,
    Broken {
        at: usize,
    },
    NoRoom {
        at: usize,
    },
    NoOutput {
        needed: usize,
    },
    TooLong,
    NoWording,
}

// The kind of a message: 1 for the action alone, 2 for the action and the cause.
fn kind_of(cause: Option<Load>) -> usize
    ensures { result ≡ kind_of cause }
{
    match cause {
        None => 1,
        Some(_) => 2,
    }
}

// Writes the message in a wording where the output has room for all of it. Its length is that of writing it to no output.
pub fn write_message(
    out: &mut [u8],
    wording: Wording,
    members: &[u8],
    member_count: usize,
    action: Action,
    cause: Option<Load>,
    records: &[u8],
    record_count: usize,
    signature: &[u8],
    instance: bool,
    scan: usize,
    block: usize,
) -> Report
    ensures { Delivered
        (said (message_text wording members.now member_count action cause records.now record_count
        signature.now instance) (kind_of cause) scan block)
        out.old result out.new }
{
    let mut none = [0u8; 0];
    let needed = put_message_at(
        &mut none,
        0,
        wording,
        members,
        member_count,
        action,
        cause,
        records,
        record_count,
        signature,
        instance,
    );
    if out.len() < needed {
        return Report::NoOutput { needed };
    }
    put_message_at(
        out,
        0,
        wording,
        members,
        member_count,
        action,
        cause,
        records,
        record_count,
        signature,
        instance,
    );
    Report::Message {
        length: needed,
        kind: kind_of(cause),
        scan,
        block,
    }
}
