// A small host in Rattle over the functions that `host_c` exports: what it holds at the end is promised to be what
// the theorem over every list speaks of. So the theorem's hypotheses are met by real calls.
#![tactic(auto)]

ghost use Rattle.std.specs.Prelude.{◌≡◌};
ghost use Rattle.trial.specs.Trial.{Tried};
ghost use Rattle.tables.specs.Contract.{memory_of};

use tables::{Bytes, Words};

// Set-up in the host's own tables; then a text is loaded as the table of rights, a real-time thread
// starts, makes an object of one slot and two data words, and asks for the status of showing null.
// The answer is the status of set-up.
pub fn trial(
    words: &mut Words,
    bytes: &mut Bytes,
    permanent: &mut [u64],
    scratch: &mut [u64],
    map: &mut [u64],
    written: &mut [u64],
    text: &[u8],
    h: u64,
    i: u64,
    t: u64,
) -> u64
    ensures { result ≡ 0 → Tried words.new bytes.new (memory_of permanent.new scratch.new map.new written.new) text.now t }
{
    let status = host_state::scopes_set_up_in_place(
        words, bytes, permanent, scratch, map, written, h, i,
    );
    if status != 0 {
        return status;
    }
    host_tables::scopes_load_rights(words, bytes, text);
    host_state::scopes_start(words, bytes, permanent, scratch, map, written, t, 2);
    host_objects::scopes_allocate(words, bytes, permanent, scratch, map, written, t, 1, 2);
    host_objects::scopes_view_status(words, bytes, permanent, scratch, map, written, t, 0);
    status
}
