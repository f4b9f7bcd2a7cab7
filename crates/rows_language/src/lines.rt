//! Lines of messages that no command prints yet, or only on a volume that no test has.

use ckd_image::Device;
use job_lines::*;
use std::alloc::Global;
use std::process::Abort;
use std::test::*;
use sysin_words::Verb;
use vol_label::Serial;
use volume_model::Why;

/// A serial that isn't in the code page.
const STRANGE: Serial = Serial {
    text: [0xc1, 0x00, 0x40, 0xff, 0xc2, 0x40],
};

/// 44 times A.
const NAME: [u8; 44] = [0xc1; 44];

/// A name without a character.
const NO_NAME: [u8; 44] = [0x40; 44];

/// Messages of statements, and their lines.
static LINES: [(u32, Message, &'static str); 13] = [
    (
        12,
        Message::Started(Verb::Defrag),
        "ADR101I (012) DEFRAG STARTED\n",
    ),
    (
        12,
        Message::Ended(Verb::Defrag, 12),
        "ADR102I (012) DEFRAG ENDED CODE 12\n",
    ),
    (
        999,
        Message::Ended(Verb::Dump, 8),
        "ADR102I (999) DUMP ENDED CODE 8\n",
    ),
    (
        998,
        Message::Ended(Verb::Restore, 0),
        "ADR102I (998) RESTORE ENDED CODE 0\n",
    ),
    (
        12,
        Message::Volume(VolumeSummary {
            serial: STRANGE,
            device: Device::D3380,
            usable: 65535,
            free: 0,
            runs: 0,
            index: 1000,
        }),
        "ADR110I (012) VOLUME A? ?B 3380 USABLE 65535 FREE 0 IN 0 RUNS INDEX 1000\n",
    ),
    (
        12,
        Message::Set(SetSummary {
            name: NO_NAME,
            organization: 0x2000,
            extents: 16,
            tracks: 4294967295,
            last_track: 0x0f0a,
            last_record: 0x0b,
        }),
        "ADR111I (012)  DA EXTENTS 16 TRACKS 4294967295 LAST 0F0A0B\n",
    ),
    (
        1,
        Message::Extent(ExtentSummary {
            number: 16,
            kind: 0xfa,
            first: 65535,
            tracks: 0,
        }),
        "ADR112I (001) EXTENT 16 KIND FA FROM 65535 LENGTH 0\n",
    ),
    (
        1,
        Message::Released(NAME, 4294967295),
        "ADR120I (001) AAAAAAAAAAAAAAAAAAAAAAAAAAAAAAAAAAAAAAAAAAAA RELEASED 4294967295\n",
    ),
    (
        1,
        Message::NotProcessed(NO_NAME, Reason::NotRelocatable, Severity::Error),
        "ADR306E (001)  NOT PROCESSED: NOT RELOCATABLE\n",
    ),
    (
        1,
        Message::NotProcessed(NO_NAME, Reason::BlockTooLong, Severity::Error),
        "ADR309E (001)  NOT PROCESSED: BLOCK TOO LONG\n",
    ),
    (
        1,
        Message::Offline(STRANGE, Why::Filling),
        "ADR401T (001) UNIT A? ?B OFFLINE: FILLING\n",
    ),
    (
        999,
        Message::VtocTooLong(STRANGE),
        "ADR403T (999) VOLUME A? ?B VTOC TOO LONG\n",
    ),
    (
        3,
        Message::UnknownName(STRANGE),
        "ADR408T (003) UNKNOWN NAME A? ?B\n",
    ),
];

fn assert_lines(rt: &impl Abort, alloc: Global) -> Result<(), Fail> {
    for (statement, message, want) in &LINES {
        let line = line_of(alloc, *statement, message)?;
        assert_eq!(rt; line.as_str(), *want);
    }
    Ok(())
}

#[test]
fn a_message_has_its_line(rt: HostRuntime) -> Result<(), Fail> {
    assert_lines(&rt, rt.alloc())
}
