// The member lookup (document 01, "What changes shape"): it hands back the part of the case that holds a member's texts.
#![tactic(auto)]

ghost use Rattle.std.specs.Prelude.{◌≡◌};
ghost use Rattle.lookup.specs.Lookup.{member_found};

use tables::read_member;

// The part of a member run that holds the three texts of the member with a pool index and kind, among so many members from
// a place on, whose indexes are above another. It is empty where there is no such member: a member of the other kind at the
// index is missing too, and so is one that can't be read. Indexes rise, so a greater one ends the search.
#[tactic(auto, using(crate::proofs::Turns::found_none), unfolding(crate::specs::Lookup::member_found))]
pub fn find_from<'a>(
    members: &'a [u8],
    from: usize,
    above: usize,
    count: usize,
    index: usize,
    kind: usize,
) -> &'a [u8]
    ensures { result.now ≡ member_found members.now index kind count above from }
{
    let mut at = from;
    let mut last = above;
    for _ in 0..count {
        let Ok(member) = read_member(members, at, last) else {
            return &members[..0];
        };
        if member.index == index {
            if member.kind == kind {
                let start = member.texts;
                let end = member.next;
                return &members[start..end];
            }
            return &members[..0];
        }
        if index < member.index {
            return &members[..0];
        }
        at = member.next;
        last = member.index;
    }
    &members[..0]
}

// The same among all members of a run.
pub fn find_member<'a>(members: &'a [u8], count: usize, index: usize, kind: usize) -> &'a [u8]
    ensures { result.now ≡ member_found members.now index kind count 0 0 }
{
    find_from(members, 0, 0, count, index, kind)
}
