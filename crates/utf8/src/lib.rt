// A text of a class file, judged and turned from modified UTF-8 (JVMS 4.4.7) to UTF-8 (document 02, request 3). Such a text stands for
// UTF-16 code units, each in one form of one, two or three bytes. A byte past the end reads as 0, which stands in no form, so a form
// that is cut is none, and every function takes any bytes.
#![tactic(auto)]

ghost use Rattle.std.specs.Prelude.{◌≡◌, length, drop, ◌<◌};
ghost use Rattle.basics.specs.Choice.{between};
ghost use Rattle.text.specs.Writing.{Written};
ghost use Rattle.utf8.specs.Turning.{is_single, is_tail, is_pair, is_triple, is_trail, size_by, is_modified};
ghost use Rattle.utf8.specs.Turning.{pair_by, surrogate_by, triple_by, turn_by, turn_of, TurnIs, turned};

use reads::byte_at;
use text::put_at;

// What the bytes at a place turn to: how many of them are taken, and how many of the four bytes are given for them.
#[derive(Clone, Copy)]
pub struct Turn {
    pub taken: usize,
    pub given: usize,
    pub bytes: [u8; 4],
}

fn within(low: u8, high: u8, byte: u8) -> bool
    ensures { result ≡ between low high byte }
{
    if low <= byte {
        return byte <= high;
    }
    false
}

// A unit of one byte. 0 is none, since the null character has a pair of bytes.
fn is_single(x: u8) -> bool
    ensures { result ≡ is_single x }
{
    within(0x01, 0x7f, x)
}

// A byte that goes on with a unit.
fn is_tail(byte: u8) -> bool
    ensures { result ≡ is_tail byte }
{
    within(0x80, 0xbf, byte)
}

// Two bytes of one unit: the null character, or a unit from 80 on. With c1 they would say what one byte says.
fn is_pair(x: u8, y: u8) -> bool
    ensures { result ≡ is_pair x y }
{
    if x == 0xc0 {
        return y == 0x80;
    }
    if within(0xc2, 0xdf, x) {
        return is_tail(y);
    }
    false
}

// Three bytes of one unit, from 800 on. With e0 and a second byte below a0 they would say what two bytes say.
fn is_triple(x: u8, y: u8, z: u8) -> bool
    ensures { result ≡ is_triple x y z }
{
    if is_tail(z) {
        if x == 0xe0 {
            return within(0xa0, 0xbf, y);
        }
        if within(0xe1, 0xef, x) {
            return is_tail(y);
        }
    }
    false
}

// How many bytes the unit has that three bytes start with, 0 where they start with none.
fn unit_size(x: u8, y: u8, z: u8) -> usize
    ensures { result ≡ size_by x y z }
{
    if is_single(x) {
        return 1;
    }
    if is_pair(x, y) {
        return 2;
    }
    if is_triple(x, y, z) {
        return 3;
    }
    0
}

// Whether a text is modified UTF-8: one unit after the other up to its end.
pub fn is_modified(text: &[u8]) -> bool
    ensures { result ≡ is_modified text.now }
{
    let mut i: usize = 0;
    // A place stays: a turn passes as many bytes as a character has.
    while i < text.len() {
        let size = unit_size(byte_at(text, i), byte_at(text, i + 1), byte_at(text, i + 2));
        if size == 0 {
            return false;
        }
        i += size;
    }
    true
}

// The null character is one byte in UTF-8; any other unit of two bytes is the same in both.
fn turn_pair(x: u8, y: u8) -> Turn
    ensures { TurnIs result (pair_by x y) }
{
    if x != 0xc0 {
        return Turn {
            taken: 2,
            given: 2,
            bytes: [x, y, 0, 0],
        };
    }
    Turn {
        taken: 2,
        given: 1,
        bytes: [0; 4],
    }
}

// The last of two units that are one character.
fn is_trail(u: u8, v: u8, w: u8) -> bool
    ensures { result ≡ is_trail u v w }
{
    if u == 0xed {
        if within(0xb0, 0xbf, v) {
            return is_tail(w);
        }
    }
    false
}

// A surrogate, of which the first byte is known, and the three bytes behind it. Two that are one character are four bytes in UTF-8; a
// lone one has none there, and the replacement character stands for it.
fn turn_surrogate(y: u8, z: u8, u: u8, v: u8, w: u8) -> Turn
    ensures { TurnIs result (surrogate_by y z u v w) }
{
    if y <= 0xaf {
        if is_trail(u, v, w) {
            let point = 0x10000
                + (y as usize % 16) * 0x10000
                + (z as usize % 64) * 0x400
                + (v as usize % 16) * 0x40
                + w as usize % 64;
            return Turn {
                taken: 6,
                given: 4,
                bytes: [
                    (0xf0 + point / 0x40000) as u8,
                    (0x80 + point / 0x1000 % 64) as u8,
                    (0x80 + point / 0x40 % 64) as u8,
                    (0x80 + point % 64) as u8,
                ],
            };
        }
    }
    Turn {
        taken: 3,
        given: 3,
        bytes: [0xef, 0xbf, 0xbd, 0],
    }
}

// A unit of three bytes is the same in both, unless it is a surrogate.
fn turn_triple(x: u8, y: u8, z: u8, u: u8, v: u8, w: u8) -> Turn
    ensures { TurnIs result (triple_by x y z u v w) }
{
    if x == 0xed {
        if 0xa0 <= y {
            return turn_surrogate(y, z, u, v, w);
        }
    }
    Turn {
        taken: 3,
        given: 3,
        bytes: [x, y, z, 0],
    }
}

// What six bytes start with, which are as many as one character has. Nothing is taken where they start with no unit.
fn turn_by(x: u8, y: u8, z: u8, u: u8, v: u8, w: u8) -> Turn
    ensures { TurnIs result (turn_by x y z u v w) }
{
    if is_single(x) {
        return Turn {
            taken: 1,
            given: 1,
            bytes: [x, 0, 0, 0],
        };
    }
    if is_pair(x, y) {
        return turn_pair(x, y);
    }
    if is_triple(x, y, z) {
        return turn_triple(x, y, z, u, v, w);
    }
    Turn {
        taken: 0,
        given: 0,
        bytes: [0; 4],
    }
}

fn turn_at(text: &[u8], at: usize) -> Turn
    requires { at < length text.now }
    ensures { TurnIs result (turn_of (drop at text.now)) }
{
    turn_by(
        byte_at(text, at),
        byte_at(text, at + 1),
        byte_at(text, at + 2),
        byte_at(text, at + 3),
        byte_at(text, at + 4),
        byte_at(text, at + 5),
    )
}

// Writes a text as UTF-8 into the output from a place on, up to where no unit starts. Answers the place after it.
pub fn put_turned_at(out: &mut [u8], at: usize, text: &[u8]) -> usize
    ensures { Written at (turned text.now) out.old result out.new }
{
    let mut i: usize = 0;
    let mut next = at;
    // A place stays: a turn passes as many bytes as a character has.
    while i < text.len() {
        let turn = turn_at(text, i);
        let taken = turn.taken;
        if taken == 0 {
            return next;
        }
        let given = turn.given;
        let bytes = turn.bytes;
        next = put_at(out, next, &bytes[..given]);
        i += taken;
    }
    next
}
