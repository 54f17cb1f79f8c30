// The name search over a case's local records (document 01, "Action and cause").
#![tactic(auto)]

ghost use Rattle.std.specs.Prelude.{◌≡◌, length};
ghost use Rattle.tables.specs.LocalRecord.{records_in};
ghost use Rattle.search.specs.Search.{covers, first_match, name_inside};

// Whether a record is of a slot and its window holds an index. The window's end is a whole number, so nothing is added.
#[tactic(auto, using(crate::proofs::Search::window_same))]
pub fn covers_load(start: usize, size: usize, of: usize, slot: usize, load: usize) -> bool
    ensures { result ≡ covers start size of slot load }
{
    if of == slot {
        if start <= load {
            return load - start < size;
        }
    }
    false
}

// Where the name of the first record of a slot whose window holds the load's index begins and ends. A record that can't be read
// ends the search.
#[tactic(auto, unfolding(tables::specs::LocalRecord::records_in, crate::specs::Search::first_match))]
pub fn find_record(records: &[u8], count: usize, slot: usize, load: usize) -> Option<(usize, usize)>
    ensures { (result ≡ first_match (records_in records.now count 0) slot load) × name_inside (length records.now) result }
{
    let mut at = 0;
    for _ in 0..count {
        let local = tables::read_record(records, at).ok()?;
        if covers_load(local.start, local.length, local.slot, slot, load) {
            return Some((local.name, local.next));
        }
        at = local.next;
    }
    None
}
