// Numbers in a run of bytes, most significant byte first. Every function takes any bytes and any index: a byte past the end reads
// as 0.
#![tactic(auto)]

ghost use Rattle.std.specs.Prelude.{◌≡◌, ◌*◌, ◌^◌, ◌≤◌, ◌<◌};
ghost use Rattle.basics.specs.Bytes.{byte_at, u16_at, u32_at};
ghost use Rattle.reads.specs.Signed.{lifted, i16_at, i32_at};

// The byte at an index.
pub fn byte_at(code: &[u8], at: usize) -> u8
    ensures { result ≡ byte_at code.now at }
{
    code.get(at).copied().unwrap_or(0)
}

// The two bytes at an index as a number, most significant first.
#[tactic(auto, using(basics::proofs::Bytes::u16_past), unfolding(basics::specs::Bytes::u16_at))]
pub fn read_u16(code: &[u8], at: usize) -> usize
    ensures { (result ≡ u16_at code.now at) × (result < 2 ^ 16) }
{
    if code.len() <= at {
        return 0;
    }
    byte_at(code, at) as usize * 256 + byte_at(code, at + 1) as usize
}

// The four bytes at an index as a number, most significant first.
#[tactic(auto, using(basics::proofs::Bytes::u32_past), unfolding(basics::specs::Bytes::u32_at))]
pub fn read_u32(code: &[u8], at: usize) -> usize
    ensures { (result ≡ u32_at code.now at) × (result < 2 ^ 32) }
{
    if code.len() <= at {
        return 0;
    }
    read_u16(code, at) * 65536 + read_u16(code, at + 2)
}

// A number below 2 * half, read as two's complement and moved up by half.
#[tactic(auto, unfolding(crate::specs::Signed::lifted))]
fn lift(half: usize, v: usize) -> usize
    requires { (half ≤ 2 ^ 31) × (v < 2 * half) }
    ensures { (result ≡ lifted half v) × (result < 2 * half) }
{
    if v < half { v + half } else { v - half }
}

// The signed 16-bit number at an index, plus 2^15.
#[tactic(auto, unfolding(crate::specs::Signed::i16_at))]
pub fn read_i16(code: &[u8], at: usize) -> usize
    ensures { (result ≡ i16_at code.now at) × (result < 2 ^ 16) }
{
    lift(0x8000, read_u16(code, at))
}

// The signed 32-bit number at an index, plus 2^31.
#[tactic(auto, unfolding(crate::specs::Signed::i32_at))]
pub fn read_i32(code: &[u8], at: usize) -> usize
    ensures { (result ≡ i32_at code.now at) × (result < 2 ^ 32) }
{
    lift(0x8000_0000, read_u32(code, at))
}
