//! Lists that are said in front of all blocks and in a block.
ghost use Rattle.std.specs.Prelude.{◌≡◌, ◌++◌, option_map, IfOk};
ghost use Rattle.conf_text.specs.Settings.{list_or_none};

use net_types::NoMemory;
use std::alloc::Global;

/// What a list comes to that doesn't go on: the block's, else the global one, else none.
pub fn list_of<T: Copy>(
    alloc: Global,
    block: &Option<Vec<T>>,
    global: &Option<Vec<T>>,
) -> Result<Vec<T>, NoMemory>
    ensures { IfOk result
        (λ list. list.items
        ≡ list_or_none (option_map (λ l. l.items) block.now) (option_map (λ l. l.items) global.now)) }
{
    match (block, global) {
        (Some(list), _) => Ok(Vec::from_slice(alloc, list)?),
        (None, Some(list)) => Ok(Vec::from_slice(alloc, list)?),
        (None, None) => Ok(Vec::new(alloc)),
    }
}

/// A list that goes on after the global one.
pub fn going_on<T: Copy>(alloc: Global, global: &[T], block: &[T]) -> Result<Vec<T>, NoMemory>
    ensures { IfOk result (λ list. list.items ≡ global.now ++ block.now) }
{
    let mut list = Vec::from_slice(alloc, global)?;
    list.extend_from_slice(block)?;
    Ok(list)
}
