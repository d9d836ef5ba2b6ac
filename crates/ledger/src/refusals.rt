// Refusals, counted by their numbers.
ghost use Rattle.std.specs.Prelude.{◌≡◌};
ghost use Rattle.ledger.specs.Refusals.{refusals_after, counted, one_more};

use protocol::Reply;

// The numbers of refusals lie below this.
pub const REFUSAL_NUMBERS: usize = 24;

// Counts the reply, if it is a refusal.
pub fn count_refusal(reply: Reply, refusals: &mut [u64; REFUSAL_NUMBERS])
    ensures { refusals.new ≡ refusals_after reply refusals.old }
{
    if let Reply::Refused(number) = reply {
        count_number(number as usize, refusals);
    }
}

fn count_number(number: usize, refusals: &mut [u64; REFUSAL_NUMBERS])
    ensures { refusals.new ≡ counted number refusals.old }
{
    if number < REFUSAL_NUMBERS {
        refusals[number] = one_more(refusals[number]);
    }
}

// One more; the largest number stays. No run has so many lines.
fn one_more(count: u64) -> u64
    ensures { result ≡ one_more count }
{
    count.saturating_add(1)
}
