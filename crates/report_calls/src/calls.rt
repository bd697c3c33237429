//! Picks, report texts, and their refusals.
use catalogue::catalogue::Catalogue;
use report_texts::report_text::write_report;
use reports::pick::pick;
use reports::record::ReportRecord;
use texts::fault::TextFault;

/// A table that drives.
const ON: ReportRecord = ReportRecord {
    cross: 0,
    drives: true,
};

/// A table that does not.
const OFF: ReportRecord = ReportRecord {
    cross: 2,
    drives: false,
};

/// A report, row counts as they are stored, by table, and the table to be picked.
#[derive(Clone, Copy)]
struct Case<'a> {
    report: &'a [ReportRecord],
    counts: &'a [(u32, i64)],
    picked: Option<u32>,
}

/// A catalogue of these counts.
fn catalogue(counts: &[(u32, i64)]) -> Catalogue {
    let mut rows = Catalogue::new();
    for (table, stored) in counts {
        let _ = rows.set(*table, *stored);
    }
    rows
}

/// The lowest known count; of equal counts the lower table; a count that is not known is no number.
#[test]
fn lowest_count_picked(rt: HostRuntime) {
    let cases = [
        // the count of table 0 is not known
        Case {
            report: &[ON, OFF, OFF, ON],
            counts: &[(3, 900)],
            picked: Some(3),
        },
        Case {
            report: &[ON, ON],
            counts: &[(0, -1), (1, 2147483647)],
            picked: Some(1),
        },
        // no rows are fewer than three
        Case {
            report: &[ON, ON, ON],
            counts: &[(0, 3), (2, 0)],
            picked: Some(2),
        },
        // a tie
        Case {
            report: &[ON, ON, ON],
            counts: &[(0, 50), (1, 7), (2, 7)],
            picked: Some(1),
        },
        // the lowest count is that of a table that does not drive
        Case {
            report: &[ON, OFF, ON],
            counts: &[(0, 8), (1, 1), (2, 6)],
            picked: Some(2),
        },
    ];
    for case in &cases {
        assert_eq!(rt; pick(case.report, &catalogue(case.counts)), case.picked);
    }
}

/// Where no driving table's count is known, the lowest of them; where none drives, none.
#[test]
fn no_count_known(rt: HostRuntime) {
    let cases = [
        Case {
            report: &[OFF, ON, ON],
            counts: &[],
            picked: Some(1),
        },
        Case {
            report: &[OFF, ON, ON],
            counts: &[(0, 5)],
            picked: Some(1),
        },
        Case {
            report: &[OFF, OFF],
            counts: &[(0, 5)],
            picked: None,
        },
        Case {
            report: &[],
            counts: &[(0, 5)],
            picked: None,
        },
    ];
    for case in &cases {
        assert_eq!(rt; pick(case.report, &catalogue(case.counts)), case.picked);
    }
}

/// The record after that of table 63 is not read.
#[test]
fn records_read(rt: HostRuntime) {
    let mut report = [OFF; 65];
    report[64] = ON;
    assert_eq!(rt; pick(&report, &catalogue(&[])), None);
    report[63] = ON;
    assert_eq!(rt; pick(&report, &catalogue(&[])), Some(63));
    report[62] = ON;
    assert_eq!(rt; pick(&report, &catalogue(&[(63, 4)])), Some(63));
}

/// Four tables joined in a ring, of which three joins are marked: the fourth, of tables 0 and 3, is a cross join from 1 and from 2.
const RING: [ReportRecord; 4] = [
    ON,
    ReportRecord {
        cross: 1,
        drives: false,
    },
    ReportRecord {
        cross: 1,
        drives: false,
    },
    ON,
];

/// The bytes of a report's text; a byte past them keeps its contents.
#[test]
fn report_written(rt: HostRuntime) {
    let mut out = [b'.'; 86];
    assert_eq!(rt; write_report(&mut out, &RING, Some(3)), Ok(85));
    assert_eq!(rt;
        &out,
        b"D    0    0    1\nD    1    1    0\nD    2    1    0\nD    3    0    1\nP    3          \n."
    );
}

/// Without a pick the P line has three unused fields; without records it is the whole text. Numbers of five digits fill their fields.
#[test]
fn fields_written(rt: HostRuntime) {
    let mut out = [b'.'; 35];
    assert_eq!(rt; write_report(&mut out, &[], None), Ok(17));
    assert_eq!(rt; &out, b"P               \n..................");
    let most = [ReportRecord {
        cross: 99999,
        drives: false,
    }];
    assert_eq!(rt; write_report(&mut out, &most, Some(99999)), Ok(34));
    assert_eq!(rt; &out, b"D    099999    0\nP99999          \n.");
}

/// Fewer bytes than the text has: the amount is named, and nothing is written.
#[test]
fn bytes_too_few(rt: HostRuntime) {
    let mut out = [b'.'; 34];
    assert_eq!(rt;
        write_report(&mut out[..33], &[ON], None),
        Err(TextFault::TooFew { needed: 34 })
    );
    assert_eq!(rt;
        write_report(&mut out, &RING, None),
        Err(TextFault::TooFew { needed: 85 })
    );
    assert_eq!(rt; &out, b"..................................");
    assert_eq!(rt; write_report(&mut out, &[ON], None), Ok(34));
}

/// A report's cross counts, its pick, and the offset of the line refused.
#[derive(Clone, Copy)]
struct Refused<'a> {
    report: &'a [ReportRecord],
    pick: Option<u32>,
    place: usize,
}

/// A number of six digits is refused at its line, the first such, also where bytes are too few, and nothing is written.
#[test]
fn number_too_large(rt: HostRuntime) {
    let large = ReportRecord {
        cross: 100000,
        drives: true,
    };
    let cases = [
        Refused {
            report: &[ON, large, OFF],
            pick: None,
            place: 17,
        },
        Refused {
            report: &[ON, OFF],
            pick: Some(100000),
            place: 34,
        },
        Refused {
            report: &[ON, OFF, large],
            pick: Some(100000),
            place: 34,
        },
        Refused {
            report: &[large, large, large, large],
            pick: None,
            place: 0,
        },
    ];
    let mut out = [b'.'; 51];
    for case in &cases {
        assert_eq!(rt;
            write_report(&mut out, case.report, case.pick),
            Err(TextFault::OutOfLimits { place: case.place })
        );
    }
    assert_eq!(rt; out, [b'.'; 51]);
}
