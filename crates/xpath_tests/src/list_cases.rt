//! Lists that grow.

use std::alloc::AllocError;
use std::test::Fail;
use test_rows::expect;
use xpath_grammar::many::Many;

/// Whether an empty list has what is pushed, in its order.
fn is_kept(items: &mut Many<u32>) -> Result<bool, AllocError> {
    let was_empty = items.len() == 0;
    for item in [7u32, 5, 7] {
        items.push(item)?;
    }
    let are_kept = items.as_slice() == [7u32, 5, 7].as_slice();
    Ok(was_empty & are_kept & (items.len() == 3))
}

#[test]
fn items_are_kept_in_order(rt: HostRuntime) -> Result<(), Fail> {
    let mut items = Many::new(rt.alloc());
    let holds = is_kept(&mut items);
    drop(items);
    expect(holds?, "items")
}
