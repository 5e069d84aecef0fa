use crate::refusal::Refusal;
use crate::reserve::{
    binary_digits, build_reserve, edit_reserve, pair_reserve, sift_reserve, window_reserve,
};
use crate::sorted::{SortedVec, sift, total};
use kinds::label::{Label, NotALabel};
use kinds::rows::slot::SlotRow;
use std::test::Fail;

// With no contract, so that no proof works out the digits of so large a number one by one.
fn largest() -> usize {
    usize::MAX
}

#[test]
fn digits_are_counted(rt: HostRuntime) {
    assert_eq!(rt; binary_digits(0), 0);
    assert_eq!(rt; binary_digits(1), 1);
    assert_eq!(rt; binary_digits(7), 3);
    assert_eq!(rt; binary_digits(8), 4);
    assert_eq!(rt; binary_digits(65535), 16);
    assert_eq!(rt; binary_digits(largest()), 64);
}

#[test]
fn reserves_follow_the_table(rt: HostRuntime) {
    assert_eq!(rt; (edit_reserve(0), edit_reserve(65535)), (12, 204));
    assert_eq!(rt; (window_reserve(0), window_reserve(8)), (64, 320));
    assert_eq!(rt;
        (pair_reserve(40, 30000), sift_reserve(30000)),
        (30048, 30008)
    );
    assert_eq!(rt; (build_reserve(7), build_reserve(8)), (55, 68));
    assert_eq!(rt; build_reserve(largest()), u32::MAX, "capped");
    assert_eq!(rt; pair_reserve(largest(), largest()), u32::MAX);
    assert_eq!(rt;
        (sift_reserve(4294967287), sift_reserve(4294967288)),
        (4294967295, 4294967295)
    );
}

#[test]
fn refusals_have_their_numbers(rt: HostRuntime) {
    let refusals = [
        Refusal::BadTables,
        Refusal::NotHeld { number: 8 },
        Refusal::CrossedBounds,
        Refusal::HoldsTaken,
        Refusal::NumbersSpent,
        Refusal::NoRoom {
            used: 0,
            reserve: 68,
        },
        Refusal::NotALabel(NotALabel::WrongByte { place: 5 }),
    ];
    for (number, refusal) in (1u8..).zip(&refusals) {
        assert_eq!(rt; refusal.number(), number);
    }
}

#[test]
fn refusals_are_printed_with_what_they_carry(rt: HostRuntime) -> Result<(), Fail> {
    let refusal = Refusal::NoRoom {
        used: 0,
        reserve: 68,
    };
    assert!(rt; format!(in rt.alloc(); "{refusal}")?.as_str() == "6 0 68");
    let refusal = Refusal::HoldsTaken;
    assert!(rt; format!(in rt.alloc(); "{refusal}")?.as_str() == "4");
    Ok(())
}

fn label_number(bytes: &[u8]) -> Result<u64, Refusal> {
    Ok(Label::try_from(bytes)?.into())
}

#[test]
fn the_label_reader_gives_refusal_7(rt: HostRuntime) {
    assert_eq!(rt; label_number(b"A00001L8"), Ok(0x4130_3030_3031_4C38));
    assert_eq!(rt;
        label_number(b"A0000-L8"),
        Err(Refusal::NotALabel(NotALabel::WrongByte { place: 5 }))
    );
    assert_eq!(rt;
        label_number(b"A00001L"),
        Err(Refusal::NotALabel(NotALabel::WrongLength))
    );
}

fn slot(address: u16, gigabytes: u32, day: u16) -> SlotRow {
    SlotRow {
        label: 0x4130_3030_3031_4C38,
        gigabytes,
        address,
        day,
    }
}

#[test]
fn entries_are_kept_in_order(rt: HostRuntime) -> Result<(), Fail> {
    let mut slots = SortedVec::new(rt.alloc());
    assert!(rt; !slots.put(slot(11, 1200, 280))?);
    assert!(rt; !slots.put(slot(20, 0, 310))?);
    assert!(rt; !slots.put(slot(10, 1, 1))?);
    assert!(rt; slots.put(slot(10, 800, 300))?, "the later stands");
    assert_eq!(rt; slots.as_slice().len(), 3);
    assert_eq!(rt; total(slots.as_slice()), (2000, 280));
    let overdue = sift(rt.alloc(), slots.as_slice(), 301)?;
    assert!(rt; overdue.len() == 2);
    assert_eq!(rt; (overdue[0].address, overdue[1].address), (10, 11));
    assert_eq!(rt; total::<SlotRow>(&[]), (0, 65535));
    Ok(())
}
