//! Names and patterns: how they are kept, and where they end.

use dsn_filter::*;
use std::alloc::Global;
use std::process::Abort;
use std::test::*;

#[test]
fn a_name_is_kept_in_capitals(rt: HostRuntime) -> Result<(), Fail> {
    let name = Dsn::read(b"sys1.Par-m.$#@9")?;
    assert_eq!(rt; name.len, 15);
    assert_eq!(rt; &name.text[..17], b"SYS1.PAR-M.$#@9\0\0".as_slice());
    Ok(())
}

/// Texts, and the place behind which nothing makes them a name.
static NO_NAMES: [(&'static [u8], u32); 8] = [
    (b"", 0),
    (b"A.", 2),
    (b"A..B", 2),
    (b"ABCDEFGH.ABCDEFGHI", 17),
    (b"A.-B", 2),
    (b"A.B*", 3),
    (b"AAAAAAAA.BBBBBBBB.CCCCCCCC.DDDDDDDD.EEEEEEEEE", 44),
    (b"AAAAAAAA.BBBBBBBB.CCCCCCCC.DDDDDDDD.EEEEEEE.F", 43),
];

fn assert_no_names(rt: &impl Abort) {
    for &(text, place) in &NO_NAMES {
        assert_eq!(rt;
            Dsn::read(text).err(),
            Some(NameFault::BadName(place)),
            "{text:?}"
        );
    }
}

#[test]
fn a_text_is_refused_where_no_name_goes_on(rt: HostRuntime) {
    assert_no_names(&rt);
}

/// Texts, and the place behind which nothing makes them a pattern.
static NO_PATTERNS: [(&'static [u8], u32); 8] = [
    (b"", 0),
    (b"A**", 2),
    (b"**A", 2),
    (b"A.**B", 4),
    (b"*.1A", 2),
    (b"A%*%*%*%*", 8),
    (b"AAAAAAAA.BBBBBBBB.CCCCCCCC.DDDDDDDD.EEEEEEEE*", 44),
    (b"AAAAAAAA.BBBBBBBB.CCCCCCCC.DDDDDDDD.EEEEEEE.*", 43),
];

fn assert_no_patterns(rt: &impl Abort, alloc: Global) {
    for &(text, place) in &NO_PATTERNS {
        let refused = Pattern::read(alloc, text).err();
        assert_eq!(rt; refused, Some(NameFault::BadPattern(place)), "{text:?}");
    }
}

#[test]
fn a_text_is_refused_where_no_pattern_goes_on(rt: HostRuntime) {
    assert_no_patterns(&rt, rt.alloc());
}
