//! How many lines each client has.

ghost use Rattle.std.specs.Prelude.{◌≡◌, ◌<◌, ◌≤◌, ◌-◌, ◌==◌, length, slice_index, slice_set};
ghost use Rattle.gen_script.specs.Counting;
ghost use Rattle.gen_script.specs.Counting.{AreCounts};
ghost use Rattle.gen_script.specs.Script.{count_of, gen_lines};

use crate::blocks::is_hundredth;

/// How many lines of a client's there are in a round.
fn in_round(client: u64, k: u64) -> u64
    requires { k ≤ 8000 }
    ensures value { result ≡ Counting.in_round client k }
    ensures small { result ≤ 13 }
{
    let first = if k % 4 == client { 6 } else { 0 };
    let second = if (k + 1) % 4 == client { 6 } else { 0 };
    let packs = if is_hundredth(k) && client == 0 { 1 } else { 0 };
    first + second + packs
}

/// How many lines of a client's there are in the script of so many rounds.
fn count_of(client: u64, rounds: u64) -> u64
    requires client { client < 4 }
    requires rounds { rounds ≤ 8000 }
    ensures { result ≡ count_of client (gen_lines rounds) }
{
    let mut count = if client == 0 { 7 } else { 1 };
    let mut k = 1;
    while k <= rounds {
        count += in_round(client, k);
        k += 1;
    }
    count
}

/// How many lines each client has in the script of so many rounds.
pub(crate) fn counts_of(rounds: u64) -> [u64; 4]
    requires { rounds ≤ 8000 }
    ensures { AreCounts result (gen_lines rounds) }
{
    [
        count_of(0, rounds),
        count_of(1, rounds),
        count_of(2, rounds),
        count_of(3, rounds),
    ]
}

/// Takes one from a client's count, and answers whether nothing is left of it.
pub(crate) fn count_down(counts: &mut [u64; 4], client: u64) -> bool
    requires client { client < 4 }
    requires some { 0 < slice_index counts.old client }
    ensures left { counts.new ≡ slice_set counts.old client (slice_index counts.old client - 1) }
    ensures none { result ≡ (slice_index counts.old client - 1 == 0) }
{
    let left = counts[client as usize] - 1;
    counts[client as usize] = left;
    left == 0
}
