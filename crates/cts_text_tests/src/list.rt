use cts_base::List;
use cts_rows::{debug_of, same};
use std::alloc::Global;
use std::test::Fail;

fn shows(alloc: Global, items: &[u32], wanted: &str) -> Result<(), Fail> {
    let found = debug_of(alloc, &items)?;
    same(found.as_str(), wanted, "a list")
}

/// These are the items of a list, before and after its end as a list.
fn gives(alloc: Global, list: List<u32>, wanted: &str) -> Result<(), Fail> {
    shows(alloc, list.as_slice(), wanted)?;
    shows(alloc, &list.into_vec(), wanted)
}

#[test]
fn a_list_gives_its_items_back_in_order(rt: HostRuntime) -> Result<(), Fail> {
    let list = List::of(vec![in rt.alloc(); 3u32, 1, 2]?);
    gives(rt.alloc(), list, "[3, 1, 2]")
}

fn push(list: &mut List<u32>, item: u32) -> Result<(), Fail> {
    Ok(list.push(item)?)
}

/// A new list is empty, and has two items after two that are pushed.
fn counts_pushes(alloc: Global, list: &mut List<u32>) -> Result<(), Fail> {
    let before = list.is_empty();
    push(list, 3)?;
    push(list, 1)?;
    let found = debug_of(alloc, &(before, list.len(), list.is_empty()))?;
    same(found.as_str(), "(true, 2, false)", "two pushes")
}

/// What three pops of a list of two items give.
fn gives_pops(alloc: Global, list: &mut List<u32>) -> Result<(), Fail> {
    let found = debug_of(alloc, &[list.pop(), list.pop(), list.pop()])?;
    same(found.as_str(), "[Some(1), Some(3), None]", "three pops")
}

/// A clone, made before the list lost its items, keeps them, and takes one more.
fn is_cloned(alloc: Global, list: &mut List<u32>) -> Result<(), Fail> {
    let mut again = list.clone()?;
    gives_pops(alloc, list)?;
    push(&mut again, 4)?;
    gives(alloc, again, "[3, 1, 4]")
}

#[test]
fn items_are_pushed_and_popped_at_the_end(rt: HostRuntime) -> Result<(), Fail> {
    let mut list = List::new(rt.alloc());
    counts_pushes(rt.alloc(), &mut list)?;
    is_cloned(rt.alloc(), &mut list)
}
