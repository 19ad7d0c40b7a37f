//! Lists in lanes over one block: filled, taken from, filled again, and dropped with values that count their drops.

ghost use Rattle.std.specs.Prelude.{◌≡◌, [], replicate};

use std::process::Abort;
use std::rc::Rc;
use std::test::Fail;
use urb_arena::Arena;

// Four values fit in, and a fifth does once one has left.
fn fill_twice(rt: &impl Abort, arena: &mut Arena<i32>) -> Result<(), Fail>
    requires { arena.old.lanes ≡ replicate 2 [] }
{
    assert!(rt; arena.push_back(0, 1).is_ok());
    let middle = arena.push_back(0, 2).ok().ok_or("full")?;
    assert!(rt; arena.push_back(0, 3).is_ok() && arena.push_back(1, 4).is_ok());
    assert!(rt; arena.push_back(1, 5).err() == Some(5));
    assert!(rt; arena.remove(middle) == Some(2));
    assert!(rt; arena.push_back(1, 5).is_ok() && arena.push_back(0, 6).err() == Some(6));
    assert!(rt; arena.len() == 4);
    Ok(())
}

/// `bench/memory` runs it with its first request for memory refused, and with its second, which there is not.
#[test]
fn one_block_filled_twice(rt: HostRuntime) -> Result<(), Fail> {
    fill_twice(&rt, &mut Arena::new(rt.alloc(), 4, 2)?)
}

// The arena has the value four times, then three times, then four times.
fn count_values(rt: &impl Abort, arena: &mut Arena<Rc<i32>>, value: &Rc<i32>) -> Result<(), Fail>
    requires { arena.old.lanes ≡ replicate 3 [] }
{
    let _ = arena.push_back(0, value.clone()?);
    let middle = arena.push_back(0, value.clone()?).ok().ok_or("full")?;
    let _ = arena.push_back(0, value.clone()?);
    let _ = arena.push_back(2, value.clone()?);
    assert!(rt; Rc::strong_count(value) == 5);
    arena.remove(middle);
    assert!(rt; Rc::strong_count(value) == 4);
    let _ = arena.push_back(1, value.clone()?);
    assert!(rt; Rc::strong_count(value) == 5);
    Ok(())
}

#[test]
fn each_live_value_dropped_once(rt: HostRuntime) -> Result<(), Fail> {
    let value = Rc::new(rt.alloc(), 0)?;
    count_values(&rt, &mut Arena::new(rt.alloc(), 8, 3)?, &value)?;
    assert!(rt; Rc::strong_count(&value) == 1);
    Ok(())
}
