//! Tests: which parts of a dump a filter takes.

use crate::full::full_text;
use crate::texts::{EMPTY, one_part_text, two_parts_text};
use by_rules::Day;
use ckd_image::{Bytes, Listed};
use dasd_pool::MemoryReel;
use dump_parts::look_through;
use std::test::*;
use sysin_lang::Filter;

/// Of each part of a dump whether a filter without patterns takes it.
fn taken(rt: &HostRuntime, text: &[u8]) -> Result<Vec<bool>, Fail> {
    let alloc = rt.alloc();
    let mut reel = MemoryReel::new(Bytes::from_slice(alloc, text)?, Vec::new(alloc));
    let filter = Filter {
        include: Listed::new(alloc),
        exclude: Listed::new(alloc),
        by: None,
    };
    let today = Day { year: 2024, day: 1 };
    match look_through(alloc, &mut reel, &filter, today) {
        Ok(survey) => Ok(survey.taken),
        Err(_) => Err(Fail::new("refused")),
    }
}

#[test]
fn whole_parts_with_names_are_taken(rt: HostRuntime) -> Result<(), Fail> {
    let alloc = rt.alloc();
    let full = full_text(alloc)?;
    assert!(rt; taken(&rt, &EMPTY)?.is_empty());
    assert_eq!(rt;
        taken(&rt, &one_part_text(alloc)?)?.as_slice(),
        [false].as_slice()
    );
    assert_eq!(rt;
        taken(&rt, &two_parts_text(alloc)?)?.as_slice(),
        [true, false].as_slice()
    );
    assert!(rt; taken(&rt, full.as_slice())?.is_empty());
    Ok(())
}
