//! The table of holds, as commands would change it.

ghost use Rattle.std.specs.Prelude.{IfOk};
ghost use Rattle.dsn_filter.specs.Dsn.{IsDsn};
ghost use Rattle.enq_table.specs.Holder.{IsHolder};

use dsn_filter::{Dsn, NameFault};
use enq_table::*;
use std::test::*;

fn name(text: &[u8]) -> Result<Dsn, NameFault>
    ensures { IfOk result IsDsn }
{
    Dsn::read(text)
}

fn holder(text: &[u8]) -> Result<Holder, NameFault>
    ensures { IfOk result IsHolder }
{
    Holder::read(text)
}

#[test]
fn a_hold_is_refused_for_the_first_against_it(rt: HostRuntime) -> Result<(), Fail> {
    let (one, two, three) = (holder(b"ONE")?, holder(b"TWO")?, holder(b"three")?);
    let a = name(b"A")?;
    let mut held = Held::new(rt.alloc());
    held.hold(a, Mode::Shared, one)?;
    held.hold(a, Mode::Shared, two)?;
    assert_eq!(rt;
        held.hold(a, Mode::Shared, two),
        Err(EnqFault::AlreadyHeld(two))
    );
    assert_eq!(rt;
        held.hold(a, Mode::Exclusive, two),
        Err(EnqFault::AlreadyHeld(one))
    );
    assert_eq!(rt; held.hold(a, Mode::Shared, three), Ok(()));
    assert_eq!(rt; held.as_slice().len(), 3);
    Ok(())
}

#[test]
fn a_hold_is_released_once(rt: HostRuntime) -> Result<(), Fail> {
    let (one, two) = (holder(b"ONE")?, holder(b"TWO")?);
    let a = name(b"A")?;
    let mut held = Held::new(rt.alloc());
    held.hold(a, Mode::Shared, one)?;
    held.hold(a, Mode::Shared, two)?;
    assert_eq!(rt; held.release(&a, &one), Ok(()));
    assert_eq!(rt; held.release(&a, &one), Err(EnqFault::NotHeld));
    assert_eq!(rt; held.conflict(&a, true), Some(two));
    assert_eq!(rt; held.conflict(&a, false), None);
    Ok(())
}
