// A run of bits in a map that is flipped, a map word at a time: clear bits are set, set bits are cleared. Each function
// asks that its bits lie in the map.
#![tactic(auto)]

ghost use Rattle.std.specs.Prelude.{◌+◌, ◌*◌, ◌<◌, ◌≤◌, length};
ghost use Rattle.flips.specs.Flipped.{FlippedDigits, Flipped};

// x with its n binary digits from digit k on flipped.
#[tactic(auto, using(crate::specs::Flipped::digits_flipped))]
fn flip_digits(x: u64, k: usize, n: usize) -> u64
    requires { (0 < n) × (k + n ≤ 64) }
    ensures { FlippedDigits x result k n }
{
    x ^ u64::MAX >> (64 - n) << k
}

// The n bits from bit w on, by one mask for each map word that holds them. What a whole word becomes depends on what it
// was: were it a constant, the compiler would call memset, which takes longer than the few words of a run.
// No `for` over map words: the wrong program must-fail/flip_bits_endless.edit goes on for ever, which none can.
pub fn flip_bits(map: &mut [u64], w: usize, n: usize)
    requires { (0 < n) × (w + n ≤ 64 * length map.old) × (w + n ≤ 32768) }
    ensures { Flipped map.old map.new w n }
{
    let mut word = w / 64;
    let mut digit = w % 64;
    let mut left = n;
    loop {
        let room = 64 - digit;
        if left <= room {
            map[word] = flip_digits(map[word], digit, left);
            return;
        }
        map[word] = flip_digits(map[word], digit, room);
        word += 1;
        digit = 0;
        left -= room;
    }
}
