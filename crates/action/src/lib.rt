// The action that failed, in words (document 01, "Action and cause"), written from a place of the output on.
#![tactic(auto)]

ghost use Rattle.text.specs.Writing.{Written};
ghost use Rattle.action.specs.Action.{action_text};

use fault::Action;
use text::put_at;
use words::{Wording, put_array_at, put_invoke_at, put_quoted_at};

// Writes the action that failed, in a wording. Answers the place after it, also where the output ends before it.
pub fn put_action_at(
    out: &mut [u8],
    at: usize,
    wording: Wording,
    members: &[u8],
    count: usize,
    action: Action,
) -> usize
    ensures { Written at (action_text wording members.now count action) out.old result out.new }
{
    match action {
        Action::ReadField { index } => {
            let texts = lookup::find_member(members, count, index, 0);
            put_quoted_at(out, at, b"Cannot read field ", items::name_of(texts))
        }
        Action::AssignField { index } => {
            let texts = lookup::find_member(members, count, index, 0);
            put_quoted_at(out, at, b"Cannot assign field ", items::name_of(texts))
        }
        Action::Invoke { index } => put_invoke_at(
            out,
            at,
            lookup::find_member(members, count, index, 1),
        ),
        Action::LoadArray { element } => put_array_at(
            out,
            at,
            wording,
            b"Cannot load from ",
            element,
        ),
        Action::StoreArray { element } => put_array_at(
            out,
            at,
            wording,
            b"Cannot store to ",
            element,
        ),
        Action::ReadLength => put_at(out, at, b"Cannot read the array length"),
        Action::ThrowException => put_at(out, at, b"Cannot throw exception"),
        Action::EnterBlock => put_at(out, at, b"Cannot enter synchronized block"),
        Action::ExitBlock => put_at(out, at, b"Cannot exit synchronized block"),
    }
}
