// The used bits in the tables: bit k mod 64 of word k / 64 is 1 where block k of scratch is a scope's.
#![tactic(auto)]

ghost use Rattle.std.specs.Prelude.{◌≡◌, ◌+◌, ◌<◌, ◌≤◌, MatchOption, length};
ghost use Rattle.runs.specs.LowestRun.{lowest_run, is_clear};
ghost use Rattle.tables.specs.Decode.{word_count, used_bits_of};
ghost use Rattle.held_blocks.specs.Part.{FlippedPart};

use tables::{USED_BITS_AT, WORDS, Words};

// The first block of the lowest run of n free ones among so many blocks, where there is one.
pub fn lowest_free(words: &Words, n: usize, blocks: usize) -> Option<usize>
    requires { (0 < n) × (n ≤ blocks) × (blocks ≤ 1024) }
    ensures { let first = lowest_run (is_clear (used_bits_of words.now)) n blocks in
        MatchOption result (blocks ≡ first) (λ k. (k ≡ first) × (k < blocks)) }
{
    let all = &words[..];
    search::lowest_run(&all[USED_BITS_AT..WORDS], n, blocks).start
}

// The n bits from bit k on of the used bits are flipped, where `all` are the words of the table.
fn flip_part(all: &mut [u64], k: usize, n: usize)
    requires { (0 < n) × (k + n ≤ 1024) × (length all.old ≡ word_count) }
    ensures { FlippedPart all.old all.new k n }
{
    flips::flip_bits(&mut all[USED_BITS_AT..WORDS], k, n);
}

// The n blocks from block k on: where all are free they are used, where all are used they are free.
pub fn flip_blocks(words: &mut Words, k: usize, n: usize)
    requires { (0 < n) × (k + n ≤ 1024) }
    ensures { FlippedPart words.old words.new k n }
{
    flip_part(&mut words[..], k, n);
}
