//! Numbers are put in and taken out at the front, in the middle and behind the last.
use crate::expecting::expect_eq;
use patch_order::Order;
use std::test::Fail;

#[test]
fn numbers_stand_where_they_are_put(rt: HostRuntime) -> Result<(), Fail> {
    let mut order = Order::new(rt.alloc())?;
    order.insert(0, 5);
    order.insert(0, 3);
    order.insert(2, 9);
    order.insert(1, 4);
    expect_eq(&rt, &order.as_slice(), &[3, 4, 5, 9].as_slice());
    expect_eq(&rt, &order.len(), &4);
    order.remove(3);
    order.remove(0);
    expect_eq(&rt, &order.as_slice(), &[4, 5].as_slice());
    Ok(())
}
