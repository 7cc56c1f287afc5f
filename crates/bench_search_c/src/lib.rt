// The search in a node for C, for `bench/search.c` to time: an export of crate bench_search, with its clause.
#![tactic(auto)]

ghost use Rattle.std.specs.Prelude.{◌≡◌};
ghost use Rattle.model.specs.Bytes.{entries_at};
ghost use Rattle.model.specs.Tree.{place};

#[unsafe(no_mangle)]
pub extern "C" fn bench_chosen_index(node: &[u8], n: u8, key: u32) -> usize
    ensures { result ≡ place key (entries_at node.now 0 n) }
{
    bench_search::bench_chosen_index(node, n, key)
}
