// Numbers in bytes, the low byte first, read at an offset. Bytes that are missing read as 0.
ghost use Rattle.std.specs.Prelude.{◌+◌, ◌≤◌, ◌<◌, ◌≡◌};
ghost use Rattle.restore.specs.Decoded.{byte_at, number_at};

pub fn byte_at(bytes: &[u8], at: usize) -> u8
    ensures { result ≡ byte_at bytes.now at }
{
    bytes.get(at).copied().unwrap_or(0)
}

// Stays: three functions, each of two halves. With the width as a const parameter the sum of the bytes fits only by a
// bound on powers of 256, which is no plainer.
pub fn two_at(bytes: &[u8], at: usize) -> u64
    requires { at ≤ 10000000 }
    ensures value { result ≡ number_at 2 bytes.now at }
    ensures upper_bound { result < 65536 }
{
    let low = byte_at(bytes, at);
    let high = byte_at(bytes, at + 1);
    low as u64 + 256 * (high as u64)
}

pub fn four_at(bytes: &[u8], at: usize) -> u64
    requires { at ≤ 9999998 }
    ensures value { result ≡ number_at 4 bytes.now at }
    ensures upper_bound { result < 4294967296 }
{
    let low = two_at(bytes, at);
    let high = two_at(bytes, at + 2);
    low + 65536 * high
}

pub fn eight_at(bytes: &[u8], at: usize) -> u64
    requires { at ≤ 9999990 }
    ensures { result ≡ number_at 8 bytes.now at }
{
    let low = four_at(bytes, at);
    let high = four_at(bytes, at + 4);
    low + 4294967296 * high
}
