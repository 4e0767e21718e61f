// Numbers in bytes, the high byte first.
ghost use Rattle.std.specs.Prelude.{◌≡◌, ◌+◌, ◌≤◌, ◌<◌, length, slice_range};
ghost use Rattle.wire.specs.Bytes.{two_at, four_at, eight_at};

// The N bytes from `at` on.
pub fn array_at<const N: usize>(bytes: &[u8], at: usize) -> [u8; N]
    requires { at + N ≤ length bytes.now }
    ensures { result ≡ slice_range bytes.now at (at + N) }
{
    let mut array = [0; N];
    array.copy_from_slice(&bytes[at..at + N]);
    array
}

pub fn two_at(bytes: &[u8], at: usize) -> u16
    requires { at + 1 < length bytes.now }
    ensures { result ≡ two_at bytes.now at }
{
    u16::from_be_bytes(array_at(bytes, at))
}

pub fn four_at(bytes: &[u8], at: usize) -> u32
    requires { at + 3 < length bytes.now }
    ensures { result ≡ four_at bytes.now at }
{
    u32::from_be_bytes(array_at(bytes, at))
}

pub fn eight_at(bytes: &[u8], at: usize) -> u64
    requires { at + 7 < length bytes.now }
    ensures { result ≡ eight_at bytes.now at }
{
    u64::from_be_bytes(array_at(bytes, at))
}
