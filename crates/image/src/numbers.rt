// Numbers in bytes, the low byte first, written into a buffer at an offset.
ghost use Rattle.std.specs.Prelude.{◌+◌, ◌≤◌, ◌/◌, ◌%◌, ◌≡◌, length, set};
ghost use Rattle.writer.specs.Buffer.{Wrote};
ghost use Rattle.image.specs.Bytes.{low};

use writer::put_byte;

// A number in so many bytes; the offset past them.
pub fn put_low<const N: usize>(out: &mut [u8], at: usize, n: u64) -> usize
    requires { at + N ≤ length out.old }
    ensures wrote { Wrote out.old at (low N n) out.new result }
    ensures upper_bound { result ≤ at + N }
{
    let mut next = at;
    let mut rest = n;
    for i in 0..N {
        next = put_byte(out, next, (rest % 256) as u8);
        rest /= 256;
    }
    next
}

// The count of a section, in the two bytes that were left before its entries.
pub fn put_count(out: &mut [u8], at: usize, count: usize)
    requires { at + 2 ≤ length out.old }
    ensures { out.new ≡ set (set out.old (at + 1) (count / 256 % 256)) at (count % 256) }
{
    out[at + 1] = (count / 256 % 256) as u8;
    out[at] = (count % 256) as u8;
}
