// The lowest run of clear bits in a map. Each function asks that its bits lie in the map.
#![tactic(auto)]

ghost use Rattle.std.specs.Prelude.{◌≡◌, suc, ◌+◌, ◌-◌, ◌*◌, ◌/◌, ◌%◌, ◌^◌, ◌<◌, ◌≤◌, MatchOption, length};
ghost use Rattle.std.specs.Int.Count.{count_leading_zeros};
ghost use Rattle.runs.specs.LowestRun.{lowest_run, is_clear};
ghost use Rattle.search.specs.ClearDown.{digits_down};

// Where a run starts, if there is one, and at how many bits the search has looked: a host sees nothing of that, and it
// costs nothing.
#[derive(Clone, Copy)]
pub struct Found {
    pub start: Option<usize>,
    pub looks: usize,
}

// The binary digits of bit w's map word, up to bit w.
fn digits_down(map: &[u64], w: usize) -> u64
    requires { w / 64 < length map.now }
    ensures { result ≡ digits_down map.now w }
{
    map[w / 64] & u64::MAX >> (63 - w % 64)
}

// How many of these digits, from bit w down, are clear above the highest set one.
fn clear_above(digits: u64, w: usize) -> usize
    requires { digits < 2 ^ suc (w % 64) }
    ensures { result ≡ count_leading_zeros 64 digits - (63 - w % 64) }
{
    u64::leading_zeros(digits) as usize - (63 - w % 64)
}

// The lowest run of n adjacent clear bits among the first `bits`, where there is one. The jumping search of source 000,
// Figure 6: a run is looked at from its last bit down, and a set bit makes the next run start behind it. It jumps while
// the last bit is set; then it goes down a map word at a time. It looks at no more than twice the bits, where a bit
// counts once for each run that it is looked at in.
pub fn lowest_run(map: &[u64], n: usize, bits: usize) -> Found
    requires { (0 < n) × (n ≤ bits) × (bits ≤ 64 * length map.now) × (bits ≤ 1024) }
    ensures start { let first = lowest_run (is_clear map.now) n bits in
        MatchOption result.start (bits ≡ first) (λ k. (k ≡ first) × (k < bits)) }
    ensures few { result.looks ≤ 2 * bits }
{
    let mut last = n - 1;
    let mut looks = 0;
    let found = 'search: loop {
        loop {
            if bitmap::bit(map, last) == 0 {
                break;
            }
            looks += 1;
            last += n;
            if bits <= last {
                break 'search None;
            }
        }
        let start = last - (n - 1);
        looks += 1;
        if n <= 1 {
            break 'search Some(start);
        }
        let mut end = last;
        loop {
            let at = end - 1;
            let digits = digits_down(map, at);
            if digits != 0 {
                let clear = clear_above(digits, at);
                if at - start < clear {
                    looks += at - start + 1;
                    break 'search Some(start);
                }
                looks += clear + 1;
                let used = at - clear;
                if bits - n <= used {
                    break 'search None;
                }
                last = used + n;
                continue 'search;
            }
            end = at / 64 * 64;
            if end <= start {
                looks += at - start + 1;
                break 'search Some(start);
            }
            looks += at - end + 1;
        }
    };
    Found {
        start: found,
        looks,
    }
}
