// An index over a member run: a table with a place for every so many pool indexes, so that a lookup need not begin at the
// run's start. A table takes any number of cells and need not fit the run: it is made in one pass, and a lookup by it reads
// no cell that it has not.
#![tactic(auto)]

ghost use Rattle.std.specs.Prelude.{◌≡◌};
ghost use Rattle.lookup.specs.Lookup.{member_found};
ghost use Rattle.index.specs.Index.{skipped, Tabled, Indexed, found_by};

// How many pool indexes share a bucket.
const WIDTH: usize = 64;

// What is left of a member run: where it begins, the pool index before it, and how many members it has.
#[derive(Clone, Copy)]
pub struct Rest {
    pub at: usize,
    pub last: usize,
    pub left: usize,
}

// What is left of so many members from a place on, whose indexes are above another, behind those of the buckets before one.
#[tactic(auto, unfolding(crate::specs::Index::skipped))]
fn skip_to(members: &[u8], from: usize, above: usize, count: usize, bucket: usize) -> Rest
    ensures { result ≡ skipped members.now bucket count above from }
{
    let mut rest = Rest {
        at: from,
        last: above,
        left: count,
    };
    for left in (0..count).rev() {
        let Ok(member) = tables::read_member(members, rest.at, rest.last) else {
            break;
        };
        if bucket <= member.index / WIDTH {
            break;
        }
        rest = Rest {
            at: member.next,
            last: member.index,
            left,
        };
    }
    rest
}

// Fills the buckets of a table, three cells each.
pub fn index_members(members: &[u8], count: usize, table: &mut [usize])
    ensures fills { Tabled members.now count table.old table.new }
    ensures serves { Indexed members.now count table.new }
{
    let buckets = table.len() / 3;
    let mut rest = Rest {
        at: 0,
        last: 0,
        left: count,
    };
    for bucket in 0..buckets {
        rest = skip_to(members, rest.at, rest.last, rest.left, bucket);
        table[3 * bucket] = rest.at;
        table[3 * bucket + 1] = rest.last;
        table[3 * bucket + 2] = rest.left;
    }
}

// The part that holds the three texts of the member with a pool index and kind, as `lookup::find_member` hands it back, by
// a table of the run.
pub fn find_indexed<'a>(
    members: &'a [u8],
    count: usize,
    table: &[usize],
    index: usize,
    kind: usize,
) -> &'a [u8]
    ensures hands { result.now ≡ found_by members.now count table.now index kind }
    ensures finds { Indexed members.now count table.now →
        result.now ≡ member_found members.now index kind count 0 0 }
{
    let bucket = index / WIDTH;
    if bucket < table.len() / 3 {
        let from = table[3 * bucket];
        let above = table[3 * bucket + 1];
        let left = table[3 * bucket + 2];
        return lookup::find_from(members, from, above, left, index, kind);
    }
    lookup::find_from(members, 0, 0, count, index, kind)
}
