// Maps of bits, which are the start map, the written map and the used bits: bit w mod 64 of map word w / 64, read and written
// in place.
// Each function asks that its bits lie in the map: a caller has compared its length first.
#![tactic(auto)]

ghost use Rattle.std.specs.Prelude.{◌≡◌, suc, ◌+◌, ◌-◌, ◌*◌, ◌/◌, ◌%◌, ◌<◌, ◌≤◌, length};
ghost use Rattle.bitmap.specs.Bitmap.{bit_at, with_bit, cleared, words_holding};
ghost use Rattle.bitmap.specs.Digits.{without_digits};

// 1 where bit w is set, else 0.
#[tactic(auto, unfolding(crate::specs::Bitmap::bit_at))]
pub fn bit(map: &[u64], w: usize) -> u64
    requires { w / 64 < length map.now }
    ensures { result ≡ bit_at map.now w }
{
    map[w / 64] >> (w % 64) & 1
}

// Sets bit w, which lies in map word i. The caller tells the word, which it needs before: computed here once more, it
// would not be kept.
#[tactic(auto, using(crate::proofs::Shifts::or_one), unfolding(crate::specs::Bitmap::with_bit))]
pub fn set_bit(map: &mut [u64], i: usize, w: usize)
    requires { (i ≡ w / 64) × (i < length map.old) }
    ensures { map.new ≡ with_bit map.old w }
{
    let digit = 1 << (w % 64);
    map[i] |= digit;
}

// x without its binary digits from digit k to digit e: those below, and those above, of which digit 63 has none.
#[tactic(auto, using(crate::specs::Digits::digits_cleared))]
fn without_digits(x: u64, k: usize, e: usize) -> u64
    requires { (k ≤ e) × (e < 64) }
    ensures { result ≡ without_digits x k (suc e - k) }
{
    x & ((1 << k) - 1) | x & (u64::MAX - 1 << e)
}

// Clears the n bits from bit w on and yields in how many turns: one for each map word that holds them. A turn clears, by
// one mask, the bits that are left of one map word: to its end or, in the last one, to the last bit. Bits that lie in
// one map word are cleared before the loop: where two maps are cleared at the same place, the two tests become one. As a
// `for` over map words the loop was slower: the compiler saw the words between become 0, and called memset, which takes
// longer than the few words of a run.
pub fn clear_bits(map: &mut [u64], w: usize, n: usize) -> usize
    requires { (w + n ≤ 64 * length map.old) × (w + n ≤ 32768) }
    ensures { (map.new ≡ cleared map.old w n) × (result ≡ words_holding w n) }
{
    if n == 0 {
        return 0;
    }
    let last = w + n - 1;
    if w / 64 == last / 64 {
        map[w / 64] = without_digits(map[w / 64], w % 64, last % 64);
        return 1;
    }
    let mut first = w;
    let mut iterations = 0;
    loop {
        let word = first / 64;
        iterations += 1;
        if word == last / 64 {
            map[word] = without_digits(map[word], first % 64, last % 64);
            return iterations;
        }
        map[word] = without_digits(map[word], first % 64, 63);
        first = 64 * (word + 1);
    }
}
