// The buffer at a turn: the bytes to tell are counted before it, and what is left of them moves to the start after it.
ghost use Rattle.std.specs.Prelude.{◌≡◌, ◌+◌, ◌≤◌, length, drop};
ghost use Rattle.std.proofs.Math.Seq.{paste};
ghost use Rattle.telling.specs.Turn.{least as smaller, kept_of, completed_buffer, completed_count};
ghost use Rattle.telling.specs.Session.{turn_buffer, filled};

pub fn least(a: usize, b: usize) -> usize
    ensures value { result ≡ smaller a b }
    ensures upper_bound { result ≤ b }
{
    a.min(b)
}

// A line of this length or more is no step and sets nothing, so that no more of it need be kept.
const NO_STEP: usize = 88;

// How many bytes of a rest are kept: all of them, unless it is known to be the start of one line.
pub fn kept_of(is_one_line: bool, left: usize) -> usize
    ensures { result ≡ kept_of is_one_line left }
{
    if is_one_line {
        least(left, NO_STEP)
    } else {
        left
    }
}

// Moves so many bytes from the offset to the start of the buffer.
pub fn move_down(buffer: &mut [u8], from: usize, count: usize)
    requires { from + count ≤ length buffer.old }
    ensures { buffer.new ≡ paste buffer.old 0 (drop from buffer.old) count }
{
    buffer.copy_within(from..from + count, 0);
}

// How many bytes of the buffer there are to tell: the rest, and what was read after it; at the end of the input an LF
// is put there.
pub fn fill(is_paused: bool, buffer: &mut [u8], rest: usize, got: usize) -> usize
    ensures buffer_after { buffer.new ≡ turn_buffer is_paused rest got buffer.old }
    ensures value { result ≡ filled is_paused rest got buffer.old }
{
    if is_paused {
        return rest;
    }
    if got == 0 {
        return complete_line(buffer, rest);
    }
    sum_within(rest, got, buffer.len())
}

// Puts an LF after the rest at the end of the input, if there is a rest and room after it, and answers how many bytes
// there are to tell.
fn complete_line(buffer: &mut [u8], rest: usize) -> usize
    ensures buffer_after { buffer.new ≡ completed_buffer buffer.old rest }
    ensures value { result ≡ completed_count buffer.old rest }
{
    if rest == 0 || buffer.len() <= rest {
        return rest;
    }
    buffer[rest] = b'\n';
    rest + 1
}

// The sum, or the bound where it is more.
fn sum_within(a: usize, b: usize, most: usize) -> usize
    ensures { result ≡ smaller (a + b) most }
{
    least(a.saturating_add(b), most)
}
