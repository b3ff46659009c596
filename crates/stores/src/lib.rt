// The words of an area: the store that has them, one of them read or written, and its place in the start
// map.
#![tactic(auto)]

ghost use Rattle.std.specs.Prelude.{◌≡◌, ◌+◌, ◌<◌, length, get_or, set};
ghost use Rattle.layout.specs.Choice.{pick};
ghost use Rattle.model.specs.State.{is_scope};
ghost use Rattle.stores.specs.Stores.{store_in, Stores};

// The store that has an area's words.
pub fn store_of<'a>(permanent: &'a [u64], scratch: &'a [u64], area: u64) -> &'a [u64]
    ensures { result.now ≡ store_in permanent.now scratch.now area }
{
    if 2 <= area {
        return scratch;
    }
    permanent
}

// A word of the store that has an area's words.
pub fn word_at(permanent: &[u64], scratch: &[u64], area: u64, at: usize) -> u64
    requires { at < length (store_in permanent.now scratch.now area) }
    ensures { result ≡ get_or (store_in permanent.now scratch.now area) at 0 }
{
    if 2 <= area {
        return scratch[at];
    }
    permanent[at]
}

// A word into the store that has an area's words. The test is that of `store_of`: the compiler then keeps the store that
// was chosen for the look-up.
pub fn put_word(permanent: &mut [u64], scratch: &mut [u64], area: u64, at: usize, word: u64)
    requires { at < length (store_in permanent.old scratch.old area) }
    ensures { Stores permanent.old scratch.old permanent.new scratch.new area (λ l. set l at word) }
{
    if 2 <= area {
        scratch[at] = word;
        return;
    }
    permanent[at] = word;
}

// How many map bits come before those of the store that has an area's words: permanent words count first, then scratch words.
pub fn first_bit(permanent: usize, area: u64) -> usize
    ensures { result ≡ pick (is_scope area) permanent 0 }
{
    if 2 <= area {
        return permanent;
    }
    0
}

// The place of a word in the start map.
pub fn bit_index(permanent: usize, area: u64, at: usize) -> usize
    requires { permanent + at < 65536 }
    ensures { result ≡ pick (is_scope area) permanent 0 + at }
{
    first_bit(permanent, area) + at
}
