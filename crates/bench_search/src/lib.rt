// The search in a node alone, for the benchmark to time. No part of the library. Crate bench_search_c exports it.
#![tactic(auto)]

ghost use Rattle.std.specs.Prelude.{◌≡◌};
ghost use Rattle.model.specs.Bytes.{entries_at};
ghost use Rattle.model.specs.Tree.{place};

// The place of the entry that descent takes, of the first n entries.
pub fn bench_chosen_index(node: &[u8], n: u8, key: u32) -> usize
    ensures { result ≡ place key (entries_at node.now 0 n) }
{
    tree_search::chosen_index(node, 0, usize::from(n), key)
}
