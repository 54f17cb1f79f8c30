// The head of the line that the program prints: the answer and its numbers.
#![tactic(auto)]

ghost use Rattle.text.specs.Writing.{Written};
ghost use Rattle.line.specs.Head.{spaced, head_text};
ghost use Rattle.line.specs.Pieces.{carried, counted};

use answer::Report;
use text::{put_at, put_decimal_at};

// Writes an answer that carries a number.
fn put_carried_at(out: &mut [u8], at: usize, answer: &[u8], n: usize) -> usize
    ensures { Written at (carried answer.now n) out.old result out.new }
{
    let zeros = put_at(out, at, answer);
    let number = put_at(out, zeros, b" 0 0 0 ");
    put_decimal_at(out, number, n)
}

// Writes a number and a space.
fn put_spaced_at(out: &mut [u8], at: usize, n: usize) -> usize
    ensures { Written at (spaced n) out.old result out.new }
{
    let end = put_decimal_at(out, at, n);
    put_at(out, end, b" ")
}

// Writes the answer 0 with its kind and counts, and the space before the message.
fn put_counted_at(out: &mut [u8], at: usize, kind: usize, scan: usize, block: usize) -> usize
    ensures { Written at (counted kind scan block) out.old result out.new }
{
    let kind_at = put_at(out, at, b"0 ");
    let scan_at = put_spaced_at(out, kind_at, kind);
    let block_at = put_spaced_at(out, scan_at, scan);
    put_spaced_at(out, block_at, block)
}

// Writes all of the line but the message and the newline, from a place on. Answers the place after it.
pub fn put_head_at(out: &mut [u8], at: usize, answer: Report) -> usize
    ensures { Written at (head_text answer) out.old result out.new }
{
    match answer {
        Report::Message {
            length: _,
            kind,
            scan,
            block,
        } => put_counted_at(out, at, kind, scan, block),
        Report::NoMessage => put_at(out, at, b"1 0 0 0"),
        Report::Broken { at: offset } => put_carried_at(out, at, b"2", offset),
        Report::NoRoom { at: index } => put_carried_at(out, at, b"3", index),
        Report::NoOutput { needed } => put_carried_at(out, at, b"4", needed),
        Report::TooLong => put_at(out, at, b"5 0 0 0"),
        Report::NoWording => put_at(out, at, b"11 0 0 0"),
    }
}
