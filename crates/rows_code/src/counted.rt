//! How many functions there are.
ghost use Rattle.std.specs.Prelude.{◌≡◌, ◌<◌, ◌^◌, length, map};
ghost use Rattle.cmm_tree.specs.Tree.{functions_among};
ghost use Rattle.cmm_tree.specs.View.{item_view};

use cmm_tree::Item;

/// How many functions a file has.
pub(crate) fn count_functions(items: &[Item]) -> u32
    requires few { length (functions_among (map item_view items.now)) < 2 ^ 32 }
    ensures { result ≡ length (functions_among (map item_view items.now)) }
{
    let mut count: u32 = 0;
    let mut rest = items;
    while let [item, others @ ..] = rest {
        match item {
            Item::Function(_) => count += 1,
            Item::Data(_) => {}
        }
        rest = others;
    }
    count
}
