// Reads one case from standard input and prints one line: the answer, the kind, the two counts, and the message or the number
// that the answer carries. Its words say in which model and wording.
#![tactic(auto)]

use answer::Report;
use asked::{Asked, State, Word};
use items::part_at;
use report::Manner;
use std::env::FillError;
use std::io;
use std::io::Read;
use std::rt::Env;

// Why the input is no case.
#[derive(Clone, Copy)]
enum InputError {
    TooLong,
    Unreadable,
}

// The size of a case that fills the buffer, where the input ends behind it.
fn after_full(stdin: &mut impl Read, size: usize) -> Result<usize, InputError> {
    let mut more = [0u8; 1];
    match stdin.read(&mut more) {
        Ok(0) => Ok(size),
        Ok(_) => Err(InputError::TooLong),
        Err(_) => Err(InputError::Unreadable),
    }
}

// Reads until the input ends, also where a pipe gives it in short pieces. The case is at the start of the buffer; its size is answered.
fn read_input(stdin: &mut impl Read, buffer: &mut [u8]) -> Result<usize, InputError> {
    let mut done: usize = 0;
    // A place stays: a read takes as many bytes as it has, so no `for` counts the turns.
    while done < buffer.len() {
        let Ok(n) = stdin.read(&mut buffer[done..]) else {
            return Err(InputError::Unreadable);
        };
        if n == 0 {
            return Ok(done);
        }
        done += n;
    }
    after_full(stdin, done)
}

fn say_start(rt: &impl Print, bytes: &[u8], n: usize) -> io::Result<()> {
    if n <= bytes.len() {
        rt.write_all(&bytes[..n])?;
    }
    Ok(())
}

// Prints the line of an answer, whose message stands at the start of the output.
fn print_line(rt: &impl Print, answer: Report, output: &[u8]) -> io::Result<()> {
    let mut head = [0u8; 128];
    let end = line::put_head_at(&mut head, 0, answer);
    say_start(rt, &head, end)?;
    if let Report::Message {
        length,
        kind: _,
        scan: _,
        block: _,
    } = answer
    {
        say_start(rt, output, length)?;
    }
    rt.write_all(b"\n")
}

fn report_case(rt: &impl Print, manner: Manner, case: &[u8]) -> io::Result<()> {
    let mut output = [0u8; 16384];
    let mut stack = [0u64; 4096];
    let answer = report::build_message_in(manner, case, &mut stack, &mut output);
    print_line(rt, answer, &output)
}

// Reports on the case at the start of the buffer.
fn report_start(rt: &impl Print, manner: Manner, buffer: &[u8], size: usize) -> io::Result<()> {
    if size <= buffer.len() {
        report_case(rt, manner, &buffer[..size])?;
    }
    Ok(())
}

// Reads the case and reports on it.
fn report_input(rt: &(impl io::Input + Print + Eprint), manner: Manner) -> io::Result<()> {
    let mut buffer = [0u8; 32768];
    match read_input(&mut rt.reader(), &mut buffer) {
        Ok(size) => report_start(rt, manner, &buffer, size),
        Err(InputError::TooLong) => print_line(rt, Report::TooLong, b""),
        Err(InputError::Unreadable) => eprintln!(rt; "npe: standard input cannot be read"),
    }
}

// The program's word at a place, or none behind the last. One that is longer than the buffer is none that it knows.
fn word_at(rt: &impl Env, at: usize) -> Option<Word> {
    let mut buffer = [0u8; 256];
    let size = match rt.arg(at, &mut buffer) {
        Ok(size) => size,
        Err(FillError::TooLong) => 0,
        Err(FillError::NotPresent) => return None,
    };
    Some(asked::read_word(part_at(&buffer, 0, size)))
}

// What all words ask for; the first is the program's name.
fn read_words(rt: &impl Env) -> Asked {
    let mut asked = asked::unasked();
    for i in 1..usize::MAX {
        let Some(word) = word_at(rt, i) else {
            return asked;
        };
        asked = asked::after_word(asked, word);
    }
    asked
}

// A wording that is none is answered before the case is read.
fn main(rt: HostRuntime) -> io::Result<()> {
    let asked = read_words(&rt);
    let state = asked.state;
    let State::Whole = state else {
        return eprintln!(rt;
            "npe: npe [--full] [--wording N], N 1 or 2, reads one case from standard input"
        );
    };
    let model = asked.model;
    let Some(wording) = asked.wording else {
        return print_line(&rt, Report::NoWording, b"");
    };
    report_input(&rt, Manner { model, wording })
}
