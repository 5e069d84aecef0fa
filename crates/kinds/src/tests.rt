mod heights;

use crate::booking::Booking;
use crate::kind::Kind;
use crate::label::Label;
use crate::rows::booking::BookingRow;
use crate::rows::label::LabelRow;
use crate::rows::slot::SlotRow;
use crate::tests::heights::Shelf;
use std::test::Fail;

// The place at which bytes are refused, and 255 where they are a label.
fn refused_at(bytes: &[u8]) -> u8 {
    match Label::try_from(bytes) {
        Ok(_) => 255,
        Err(refused) => refused.place(),
    }
}

#[test]
fn labels_have_eight_bytes(rt: HostRuntime) {
    assert_eq!(rt; refused_at(b""), 8);
    assert_eq!(rt; refused_at(b"A00001L"), 8);
    assert_eq!(rt; refused_at(b"A00001L8"), 255);
    assert_eq!(rt; refused_at(b"A00001L89"), 8);
    assert_eq!(rt; refused_at(b"-00001L"), 8, "the length is looked at first");
}

#[test]
fn labels_name_the_first_wrong_byte(rt: HostRuntime) {
    assert_eq!(rt; refused_at(b"a0000001"), 0);
    assert_eq!(rt; refused_at(b"A@000001"), 1);
    assert_eq!(rt; refused_at(b"AZ[00001"), 2);
    assert_eq!(rt; refused_at(b"AZ0/0001"), 3);
    assert_eq!(rt; refused_at(b"AZ09:001"), 4);
    assert_eq!(rt; refused_at(b"A0000-L8"), 5);
    assert_eq!(rt; refused_at(b"AZ0900 1"), 6);
    assert_eq!(rt; refused_at(b"AZ09000\xff"), 7);
    assert_eq!(rt; refused_at(b"A-0000-8"), 1);
}

#[test]
fn labels_are_read_and_written(rt: HostRuntime) -> Result<(), Fail> {
    let label = Label::try_from(b"A00001L8".as_slice())?;
    assert_eq!(rt; u64::from(label), 0x4130_3030_3031_4C38);
    assert_eq!(rt; label.to_bytes(), *b"A00001L8");
    let next = Label::try_from(0x4130_3030_3032_4C38)?;
    assert!(rt; label.less(next) & !next.less(label) & !label.less(label));
    assert!(rt;
        Label::try_from(0x4130_3030_3032_4C2D).is_err(),
        "a hyphen at the end"
    );
    assert!(rt; Label::try_from(0).is_err());
    Ok(())
}

#[test]
fn bookings_end_after_they_start(rt: HostRuntime) -> Result<(), Fail> {
    let Some(booking) = Booking::new(5, 6) else {
        return Err(Fail::new("5 to 6"));
    };
    assert_eq!(rt; (booking.start(), booking.end()), (5, 6));
    assert_eq!(rt; BookingRow::from(booking).end, 6);
    assert!(rt; Booking::new(5, 5).is_none() & Booking::new(6, 5).is_none());
    assert!(rt;
        Booking::try_from(BookingRow {
            start: 0,
            end: u32::MAX,
        })
        .is_ok()
    );
    assert!(rt;
        Booking::try_from(BookingRow {
            start: u32::MAX,
            end: u32::MAX,
        })
        .is_err()
    );
    Ok(())
}

#[test]
fn slots_sum_gigabytes_and_find_the_earliest_day(rt: HostRuntime) {
    let slot = SlotRow {
        label: 0x4130_3030_3031_4C38,
        gigabytes: u32::MAX,
        address: 10,
        day: 65535,
    };
    assert_eq!(rt; <SlotRow as Kind>::measure(slot), (4294967295, 65535));
    assert_eq!(rt;
        <SlotRow as Kind>::combine((u64::MAX - 1, 300), (1, 280)),
        (u64::MAX, 280)
    );
    assert_eq!(rt;
        <SlotRow as Kind>::combine((u64::MAX, 280), (u64::MAX, 300)),
        (u64::MAX, 280),
        "saturates"
    );
    assert_eq!(rt;
        <SlotRow as Kind>::combine(<SlotRow as Kind>::neutral(), (7, 65535)),
        (7, 65535)
    );
    assert!(rt;
        <SlotRow as Kind>::passes((0, 65534), 65535) & !<SlotRow as Kind>::passes((0, 65535), 65535)
    );
    let later = SlotRow { day: 1, ..slot };
    assert!(rt; <SlotRow as Kind>::same(slot, slot) & !<SlotRow as Kind>::same(slot, later));
    assert_eq!(rt; <SlotRow as Kind>::blend(slot, later).day, 1);
}

#[test]
fn bookings_sum_to_the_latest_end(rt: HostRuntime) {
    let first = BookingRow {
        start: 600,
        end: 660,
    };
    let second = BookingRow {
        start: 600,
        end: 630,
    };
    assert_eq!(rt;
        <BookingRow as Kind>::combine(
            <BookingRow as Kind>::neutral(),
            <BookingRow as Kind>::measure(first)
        ),
        660
    );
    assert_eq!(rt; <BookingRow as Kind>::blend(first, second).end, 660);
    assert!(rt; <BookingRow as Kind>::passes(660, 659) & !<BookingRow as Kind>::passes(660, 660));
    assert!(rt;
        <BookingRow as Kind>::less(0, u32::MAX)
            & !<BookingRow as Kind>::less(600, <BookingRow as Kind>::key(first))
    );
}

#[test]
fn labels_sum_to_the_bits_of_their_classes(rt: HostRuntime) {
    let first = LabelRow {
        label: 1,
        address: 10,
        class: 5,
    };
    let second = LabelRow {
        label: 1,
        address: 20,
        class: 130,
    };
    let both = <LabelRow as Kind>::blend(first, second);
    assert_eq!(rt; (both.address, both.class), (20, 135));
    assert_eq!(rt;
        <LabelRow as Kind>::combine(
            <LabelRow as Kind>::measure(first),
            <LabelRow as Kind>::neutral()
        ),
        5
    );
    assert!(rt;
        <LabelRow as Kind>::passes(5, 4)
            & !<LabelRow as Kind>::passes(5, 2)
            & !<LabelRow as Kind>::passes(255, 0)
    );
    assert!(rt;
        !<LabelRow as Kind>::same(first, second) & <LabelRow as Kind>::same(second, second)
    );
}

#[test]
fn a_neutral_sum_is_made_by_a_function(rt: HostRuntime) {
    let shelf = Shelf {
        place: 3,
        height: 40,
    };
    let sum = <Shelf as Kind>::combine(<Shelf as Kind>::neutral(), <Shelf as Kind>::measure(shelf));
    assert_eq!(rt; sum.value(), 40);
    assert_eq!(rt; <Shelf as Kind>::neutral().value(), 0);
}
