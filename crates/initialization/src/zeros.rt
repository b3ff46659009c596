// A run of zeros in a store: the slots and the data of a new object.
ghost use Rattle.std.specs.Prelude.{◌≡◌, ◌+◌, ◌<◌, ◌≤◌, length};
ghost use Rattle.model.specs.Objects.{filled};

// So many words of 0: a loop that the compiler turns into a call of memset, or into stores where it knows the number.
fn zero_run(store: &mut [u64], from: usize, n: usize)
    requires { from + n ≤ length store.old }
    ensures { store.new ≡ filled store.old from n 0 }
{
    for i in 0..n {
        store[from + i] = 0;
    }
}

// Any number but 0. Up to 8 are written without that call, which takes longer than so few stores: the first four
// and the last four, or the first two and the last two, so that a word between may be written twice.
pub fn zero_words(store: &mut [u64], from: usize, n: usize)
    requires { (0 < n) × (from + n ≤ length store.old) }
    ensures { store.new ≡ filled store.old from n 0 }
{
    if 8 < n {
        zero_run(store, from, n);
        return;
    }
    if 4 <= n {
        zero_run(store, from, 4);
        zero_run(store, from + n - 4, 4);
        return;
    }
    if 2 <= n {
        zero_run(store, from, 2);
        zero_run(store, from + n - 2, 2);
        return;
    }
    store[from] = 0;
}
