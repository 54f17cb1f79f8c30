// The library's answers as structs of numbers, for C. A number that an answer does not carry is 0.
#![tactic(auto)]

ghost use Rattle.std.specs.Prelude.{◌≡◌};
ghost use Rattle.structs.specs.Structs.{low, report_numbers, length_numbers, leader_numbers, slot_numbers, walk_numbers, strict_numbers};

use answer::Report;
use bytecode::Unmeasured;
use leader::Scanned;
use refusal::Refusal;
use walk::Walk;

// The report of a case.
#[repr(C)]
#[derive(Clone, Copy)]
pub struct KorsepalReport {
    pub answer: u32,
    pub kind: u32,
    pub scan: u32,
    pub block: u32,
    pub value: u64,
}

// The length of an instruction.
#[repr(C)]
#[derive(Clone, Copy)]
pub struct KorsepalLength {
    pub status: u32,
    pub length: u64,
}

// The leader of a fault's block.
#[repr(C)]
#[derive(Clone, Copy)]
pub struct KorsepalLeader {
    pub found: u32,
    pub scan: u64,
    pub leader: u64,
}

// The slots of a return or a field.
#[repr(C)]
#[derive(Clone, Copy)]
pub struct KorsepalSlots {
    pub status: u32,
    pub slots: u32,
}

// The walk of a block, alone.
#[repr(C)]
#[derive(Clone, Copy)]
pub struct KorsepalWalk {
    pub outcome: u32,
    pub height: u64,
    pub count: u64,
    pub index: u64,
}

// The name of a local.
#[repr(C)]
#[derive(Clone, Copy)]
pub struct KorsepalName {
    pub answer: u32,
    pub value: u64,
}

// The parameters of a method.
#[repr(C)]
#[derive(Clone, Copy)]
pub struct KorsepalParameters {
    pub status: u32,
    pub slots: u64,
    pub length: u64,
}

// The types of a strict descriptor.
#[repr(C)]
#[derive(Clone, Copy)]
pub struct KorsepalTypes {
    pub refusal: u32,
    pub count: u64,
}

// A number as one of 32 bits, the greatest where it has more.
pub fn low_bits(n: usize) -> u32
    ensures { result ≡ low n }
{
    if n < 4294967296 {
        return n as u32;
    }
    4294967295
}

// An answer that carries one number or none.
fn carried(answer: u32, value: usize) -> KorsepalReport
    ensures { result ≡ record { answer = answer; kind = 0; scan = 0; block = 0; value = value } }
{
    KorsepalReport {
        answer,
        kind: 0,
        scan: 0,
        block: 0,
        value: value as u64,
    }
}

// The numbers of a report.
pub fn report_numbers(answer: Report) -> KorsepalReport
    ensures { result ≡ report_numbers answer }
{
    match answer {
        Report::Message {
            length,
            kind,
            scan,
            block,
        } => KorsepalReport {
            answer: 0,
            kind: low_bits(kind),
            scan: low_bits(scan),
            block: low_bits(block),
            value: length as u64,
        },
        Report::NoMessage => carried(1, 0),
        Report::Broken { at } => carried(2, at),
        Report::NoRoom { at } => carried(3, at),
        Report::NoOutput { needed } => carried(4, needed),
        Report::TooLong => carried(5, 0),
        Report::NoWording => carried(11, 0),
    }
}

// The numbers of a length.
pub fn length_numbers(length: Result<usize, Unmeasured>) -> KorsepalLength
    ensures { result ≡ length_numbers length }
{
    match length {
        Ok(n) => KorsepalLength {
            status: 0,
            length: n as u64,
        },
        Err(Unmeasured::NoLength) => KorsepalLength {
            status: 1,
            length: 0,
        },
        Err(Unmeasured::Reserved) => KorsepalLength {
            status: 2,
            length: 0,
        },
    }
}

// The numbers of a scan.
pub fn leader_numbers(scan: Result<Scanned, Scanned>) -> KorsepalLeader
    ensures { result ≡ leader_numbers scan }
{
    match scan {
        Ok(Scanned { at, count }) => KorsepalLeader {
            found: 1,
            scan: count as u64,
            leader: at as u64,
        },
        Err(Scanned { at: _, count }) => KorsepalLeader {
            found: 0,
            scan: count as u64,
            leader: 0,
        },
    }
}

// The numbers of a return's slots.
pub fn slot_numbers(slots: Option<usize>) -> KorsepalSlots
    ensures { result ≡ slot_numbers slots }
{
    match slots {
        Some(n) => KorsepalSlots {
            status: 0,
            slots: low_bits(n),
        },
        None => KorsepalSlots {
            status: 1,
            slots: 0,
        },
    }
}

// The numbers of a walk.
pub fn walk_numbers(walk: Walk) -> KorsepalWalk
    ensures { result ≡ walk_numbers walk }
{
    match walk {
        Walk::Done { height, count } => KorsepalWalk {
            outcome: 0,
            height: height as u64,
            count: count as u64,
            index: 0,
        },
        Walk::Failed { count } => KorsepalWalk {
            outcome: 1,
            height: 0,
            count: count as u64,
            index: 0,
        },
        Walk::NoRoom { at } => KorsepalWalk {
            outcome: 3,
            height: 0,
            count: 0,
            index: at as u64,
        },
    }
}

// The numbers of a strict reader's answer.
#[tactic(auto, unfolding(judging::specs::Judged::numbered))]
pub fn strict_numbers(answer: Result<usize, Refusal>) -> KorsepalTypes
    ensures { result ≡ strict_numbers answer }
{
    match answer {
        Ok(count) => KorsepalTypes {
            refusal: 0,
            count: count as u64,
        },
        Err(refusal) => KorsepalTypes {
            refusal: low_bits(u64::from(refusal) as usize),
            count: 0,
        },
    }
}
