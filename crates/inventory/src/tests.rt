use crate::fault::{Fault, Field};
use crate::line::read_line;
use crate::row::write_row;
use crate::text::read_text;
use kinds::label::NotALabel;
use kinds::rows::slot::SlotRow;
use std::process::Abort;
use std::test::Fail;

// The label A00001L8.
const LABEL: u64 = 0x4130_3030_3031_4c38;

fn refuses(rt: &impl Abort, line: &[u8], fault: Fault) {
    assert_eq!(rt; read_line(line), Err(Some(fault)));
}

fn gives(rt: &impl Abort, line: &[u8], address: u16, gigabytes: u32, day: u16) {
    let row = SlotRow {
        label: LABEL,
        gigabytes,
        address,
        day,
    };
    assert_eq!(rt; read_line(line), Ok(row));
}

fn says_nothing(rt: &impl Abort, line: &[u8]) {
    assert_eq!(rt; read_line(line), Err(None));
}

#[test]
fn rows(rt: HostRuntime) {
    gives(&rt, b"10 A00001L8 800 300", 10, 800, 300);
    gives(&rt, b"\t10  A00001L8 800 300\r", 10, 800, 300);
    gives(&rt, b"10 A00001L8 800 300# in the vault", 10, 800, 300);
    gives(
        &rt,
        b"65535 A00001L8 4294967295 65535",
        65535,
        4294967295,
        65535,
    );
    gives(&rt, b"00000000000000000000000007 A00001L8 0 0", 7, 0, 0);
}

#[test]
fn blank_lines(rt: HostRuntime) {
    says_nothing(&rt, b"");
    says_nothing(&rt, b" \t\r");
    says_nothing(&rt, b"# 10 A00001L8 800 300");
}

#[test]
fn wrong_numbers(rt: HostRuntime) {
    refuses(
        &rt,
        b"65536 A00001L8 800 300",
        Fault::TooLarge {
            field: Field::Address,
        },
    );
    refuses(
        &rt,
        b"10 A00001L8 4294967296 300",
        Fault::TooLarge {
            field: Field::Gigabytes,
        },
    );
    refuses(
        &rt,
        b"10 A00001L8 800 65536",
        Fault::TooLarge { field: Field::Day },
    );
    refuses(
        &rt,
        b"10 A00001L8 800 99999999999999999999999",
        Fault::TooLarge { field: Field::Day },
    );
    refuses(
        &rt,
        b"99999999999999999999999x A00001L8 800 300",
        Fault::NotANumber {
            field: Field::Address,
        },
    );
    refuses(
        &rt,
        b"10 A00001L8 -1 300",
        Fault::NotANumber {
            field: Field::Gigabytes,
        },
    );
    refuses(
        &rt,
        b"10 A00001L8 +1 300",
        Fault::NotANumber {
            field: Field::Gigabytes,
        },
    );
}

#[test]
fn wrong_labels(rt: HostRuntime) {
    refuses(
        &rt,
        b"10 A00001L 800 300",
        Fault::NotALabel(NotALabel::WrongLength),
    );
    refuses(
        &rt,
        b"10 A00001L89 800 300",
        Fault::NotALabel(NotALabel::WrongLength),
    );
    for place in 0..8u8 {
        let mut line = *b"10 A00001L8 800 300";
        line[3 + usize::from(place)] = b'-';
        refuses(&rt, &line, Fault::NotALabel(NotALabel::WrongByte { place }));
    }
}

#[test]
fn wrong_counts(rt: HostRuntime) {
    refuses(
        &rt,
        b"10",
        Fault::Missing {
            field: Field::Label,
        },
    );
    refuses(
        &rt,
        b"10 A00001L8",
        Fault::Missing {
            field: Field::Gigabytes,
        },
    );
    refuses(
        &rt,
        b"10 A00001L8 800 # 300",
        Fault::Missing { field: Field::Day },
    );
    refuses(&rt, b"10 A00001L8 800 300 1", Fault::ExtraWord);
}

#[test]
fn texts(rt: HostRuntime) -> Result<(), Fail> {
    assert_eq!(rt; read_text(rt.alloc(), b"")?.len(), 0);
    assert_eq!(rt; read_text(rt.alloc(), b"10\n\n11")?.len(), 3);
    assert_eq!(rt; read_text(rt.alloc(), b"10\n\n")?.len(), 2);
    let row = SlotRow {
        label: LABEL,
        gigabytes: 800,
        address: 10,
        day: 300,
    };
    assert!(rt; write_row(rt.alloc(), row)?.as_str() == "10 A00001L8 800 300");
    Ok(())
}
