// The same name search over a lent run of local records (document 01, "Expected form in each place"), and the filling of such a
// run from a case's bytes.
#![tactic(auto)]

ghost use Rattle.std.specs.Prelude.{◌-◌, ◌≡◌, ◌∷◌, [], length};
ghost use Rattle.tables.specs.LocalRecord.{records_in};
ghost use Rattle.search.specs.Search.{first_match, name_inside};
ghost use Rattle.records.specs.Run.{viewed, viewed_all, or_else, read_next, run_of};

use search::covers_load;

// A local record: the window of indexes that it holds for, its slot, and where its name begins and ends.
#[derive(Clone, Copy)]
pub struct LocalRecord {
    pub start: usize,
    pub length: usize,
    pub slot: usize,
    pub from: usize,
    pub to: usize,
}

// A record that was read last, where the next begins, and how many there are at most.
#[derive(Clone, Copy)]
struct Reading {
    local: LocalRecord,
    at: usize,
    left: usize,
}

// A record whose window holds no index.
const BLANK: LocalRecord = LocalRecord {
    start: 0,
    length: 0,
    slot: 0,
    from: 0,
    to: 0,
};

// A blank record, and no more to read.
const NO_MORE: Reading = Reading {
    local: BLANK,
    at: 0,
    left: 0,
};

// The name that is found so far, else that of a record of the slot whose window holds the index.
#[tactic(auto, unfolding(search::specs::Search::first_match))]
fn name_or(
    local: LocalRecord,
    slot: usize,
    load: usize,
    found: Option<(usize, usize)>,
) -> Option<(usize, usize)>
    ensures { result ≡ or_else found (first_match (viewed local ∷ []) slot load) }
{
    if covers_load(local.start, local.length, local.slot, slot, load) {
        return found.or(Some((local.from, local.to)));
    }
    found
}

// The name of the first record of a lent run that is of a slot and whose window holds the load's index.
#[tactic(auto, using(crate::proofs::Search::found_over))]
pub fn search_run(run: &[LocalRecord], slot: usize, load: usize) -> Option<(usize, usize)>
    ensures { result ≡ first_match (viewed_all run.now) slot load }
{
    let mut found = None;
    for local in run {
        found = name_or(*local, slot, load, found);
    }
    found
}

// The record at the place that is reached, and what is reached after it; a blank one, and no more, where there is none to read.
#[tactic(auto, unfolding(crate::specs::Run::next_of))]
fn read_next(bytes: &[u8], reading: Reading) -> Reading
    ensures { result ≡ read_next bytes.now reading }
{
    if reading.left == 0 {
        return NO_MORE;
    }
    let Ok(place) = tables::read_record(bytes, reading.at) else {
        return NO_MORE;
    };
    Reading {
        local: LocalRecord {
            start: place.start,
            length: place.length,
            slot: place.slot,
            from: place.name,
            to: place.next,
        },
        at: place.next,
        left: reading.left - 1,
    }
}

// Fills a lent run with the records of a case's bytes, at most so many, from a place on, and with blank ones after them.
#[tactic(auto, using(crate::proofs::Fill::filled_next, crate::proofs::Fill::filled_over))]
pub fn fill_run(run: &mut [LocalRecord], bytes: &[u8], at: usize, count: usize)
    ensures { run.new ≡ run_of (length run.old) (records_in bytes.now count at) }
{
    let mut reading = Reading {
        local: BLANK,
        at,
        left: count,
    };
    for local in run {
        reading = read_next(bytes, reading);
        *local = reading.local;
    }
}

// Eight records of a case's bytes, from a place on, and blank ones after them.
fn eight_records(bytes: &[u8], at: usize, count: usize) -> [LocalRecord; 8]
    ensures { result ≡ run_of 8 (records_in bytes.now count at) }
{
    let mut eight = [BLANK; 8];
    fill_run(&mut eight, bytes, at, count);
    eight
}

// The search over eight records, which are lent.
fn search_eight(eight: [LocalRecord; 8], slot: usize, load: usize) -> Option<(usize, usize)>
    ensures { result ≡ first_match (viewed_all eight) slot load }
{
    search_run(&eight, slot, load)
}

// The name of the first record of a case's bytes that is of a slot and whose window holds the load's index, over runs of eight.
pub fn find_in_runs(
    records: &[u8],
    count: usize,
    slot: usize,
    load: usize,
) -> Option<(usize, usize)>
    ensures { (result ≡ first_match (records_in records.now count 0) slot load)
        × name_inside (length records.now) result }
{
    let mut at = 0;
    let mut left = count;
    // A place stays: the records that are left drop by eight, and the next ones begin where a run ends.
    while 0 < left {
        let eight = eight_records(records, at, left);
        let found = search_eight(eight, slot, load);
        if let Some(name) = found {
            return Some(name);
        }
        let last = eight[7];
        if last.to == 0 {
            return None;
        }
        at = last.to;
        left = left.saturating_sub(8);
    }
    None
}
