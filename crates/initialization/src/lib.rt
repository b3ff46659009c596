// The words and the map bits of a new object.
#![tactic(auto)]

mod zeros; // zeros.rt: a run of zeros

ghost use Rattle.std.specs.Prelude.{◌≡◌, ◌+◌, ◌*◌, ◌≤◌, length};
ghost use Rattle.bitmap.specs.Bitmap.{words_holding};
ghost use Rattle.model.specs.Objects.{object_words, object_bits};
ghost use Rattle.stores.specs.Stores.{store_in, Stores};

use layout::handle;

// The words of an object of a store: its header, and 0 in its slots and its data. The header is written first, so that
// what it is made of need not be kept while the zeros are written.
fn write_object(store: &mut [u64], at: usize, slots: u64, data_words: u64)
    requires { (at + 1 + slots + data_words ≤ length store.old) × (at + 1 + slots + data_words ≤ 16384) }
    ensures { store.new ≡ object_words store.old at slots data_words }
{
    store[at] = handle::header(slots, data_words);
    let n = (slots + data_words) as usize;
    if n == 0 {
        return;
    }
    zeros::zero_words(store, at + 1, n);
}

// The words of an object in the store that has an area's words.
pub fn put_object(
    permanent: &mut [u64],
    scratch: &mut [u64],
    area: u64,
    at: usize,
    slots: u64,
    data_words: u64,
)
    requires { (at + 1 + slots + data_words ≤ length (store_in permanent.old scratch.old area)) × (at + 1 + slots + data_words ≤ 16384) }
    ensures { Stores permanent.old scratch.old permanent.new scratch.new area (λ l. object_words l at slots data_words) }
{
    if area < 2 {
        write_object(permanent, at, slots, data_words);
        return;
    }
    write_object(scratch, at, slots, data_words);
}

// The map bits of an object: 1 for the header, 0 for the n words after it. All of them are cleared first, in one iteration
// for each map word that holds them; it yields how many that were.
pub fn mark_object(map: &mut [u64], bit: usize, n: usize) -> usize
    requires { (bit + 1 + n ≤ 64 * length map.old) × (bit + 1 + n ≤ 32768) }
    ensures { (map.new ≡ object_bits map.old bit n) × (result ≡ words_holding bit (n + 1)) }
{
    let iterations = bitmap::clear_bits(map, bit, n + 1);
    bitmap::set_bit(map, bit / 64, bit);
    iterations
}
