//! Definitions of the format's worked file, of each type, and at each limit.
use crate::{Definitions, Field, Table, TdfFault, Uncollectable};
use pb_base::{Nsec, TableNo};
use std::alloc::Global;
use std::test::*;

/// A file of one event table T with one FP2 field V.
const FILE: [u8; 44] = [
    0x01, 0x54, 0x00, 0x00, 0x00, 0x00, 0x0A, 0x0E, 0, 0, 0, 0, 0, 0, 0, 0, 0, 0, 0, 0, 0, 0, 0, 0,
    0x07, 0x56, 0x00, 0x00, 0x00, 0x00, 0x00, 0x00, 0x00, 0x00, 0x01, 0x00, 0x00, 0x00, 0x01, 0x00,
    0x00, 0x00, 0x00, 0x00,
];

/// The version, the name, the size, the time type, the time into the interval, the interval, the field's type, its
/// name, the end of its aliases, its processing, units and description, its begin, dimension and sub-dimensions, and
/// the end of the fields, each by its first byte.
const ITEMS: [usize; 17] = [
    0, 1, 3, 7, 8, 16, 24, 25, 27, 28, 29, 30, 31, 35, 39, 43, 44,
];

/// The first byte of the item in which the place lies.
fn item_at(place: usize) -> usize {
    let mut first = 0;
    for item in ITEMS {
        if item <= place {
            first = item;
        }
    }
    first
}

fn is_text(item: usize) -> bool {
    item == 1 || (item >= 25 && item < 31)
}

fn refusal(alloc: Global, bytes: &[u8]) -> Option<TdfFault> {
    Definitions::read(alloc, bytes).err()
}

#[test]
fn one_event_table(rt: HostRuntime) -> Result<(), Fail> {
    let tables = Definitions::read(rt.alloc(), &FILE).ok().ok_or("a file")?;
    assert_eq!(rt; tables.count(), 1);
    assert_eq!(rt; tables.by_name(b"T"), Some(TableNo(1)));
    assert_eq!(rt; tables.by_name(b"t"), None);
    assert!(rt; tables.table(TableNo(0)).is_none());
    assert!(rt; tables.table(TableNo(2)).is_none());
    let table = tables.table(TableNo(1)).ok_or("a table")?;
    assert_eq!(rt; table.bytes(), &FILE[1..]);
    assert_eq!(rt; table.name(), b"T".as_slice());
    assert_eq!(rt; table.size(), 10);
    assert_eq!(rt; table.signature(), 0x8A5F);
    let layout = table.layout().ok().ok_or("a layout")?;
    assert_eq!(rt; layout.record_len, 2);
    assert!(rt; layout.event);
    assert_eq!(rt; layout.interval, Nsec { sec: 0, nano: 0 });
    assert_eq!(rt; table.fields(), 1);
    let field = table.field(0).ok_or("a field")?;
    assert_eq!(rt; field.kind, 7);
    assert!(rt; !field.read_only);
    assert_eq!(rt; field.name, b"V".as_slice());
    assert_eq!(rt; field.dimension, 1);
    assert!(rt; table.field(1).is_none());
    Ok(())
}

/// The refusal of a file that is cut in this item.
fn cut_in(item: usize, len: usize) -> Option<TdfFault> {
    if len == 1 {
        // The version alone is a file without tables.
        None
    } else if is_text(item) {
        Some(TdfFault::NoEnd { at: item })
    } else {
        Some(TdfFault::Short { at: item })
    }
}

fn cuts_are_refused(alloc: Global, file: &[u8]) -> bool {
    (0..file.len()).all(|len| match file.get(..len) {
        Some(cut) => refusal(alloc, cut) == cut_in(item_at(len), len),
        None => false,
    })
}

#[test]
fn a_file_cut_at_each_byte(rt: HostRuntime) {
    assert!(rt; cuts_are_refused(rt.alloc(), &FILE));
}

/// The header of a table T of size 1 without an interval.
const HEADER: [u8; 23] = [
    0x54, 0, 0, 0, 0, 1, 14, 0, 0, 0, 0, 0, 0, 0, 0, 0, 0, 0, 0, 0, 0, 0, 0,
];

fn push_field(out: &mut Vec<u8>, kind: u8, name: &[u8], dimension: u32) -> Result<(), Fail> {
    out.push(kind)?;
    out.extend_from_slice(name)?;
    out.extend_from_slice(&[0, 0, 0, 0, 0, 0, 0, 0, 1])?;
    out.extend_from_slice(&dimension.to_be_bytes())?;
    out.extend_from_slice(&[0, 0, 0, 0])?;
    Ok(())
}

/// A table of one field.
fn table_of(alloc: Global, kind: u8, name: &[u8], dimension: u32) -> Result<Vec<u8>, Fail> {
    let mut out = Vec::from_slice(alloc, &HEADER)?;
    push_field(&mut out, kind, name, dimension)?;
    out.push(0)?;
    Ok(out)
}

fn table_refusal(alloc: Global, bytes: &[u8]) -> Option<TdfFault> {
    Table::read(alloc, bytes).err()
}

#[test]
fn bytes_after_a_table(rt: HostRuntime) -> Result<(), Fail> {
    let alloc = rt.alloc();
    assert_eq!(rt; table_refusal(alloc, &FILE[1..]), None);
    let mut more = Vec::from_slice(alloc, &FILE[1..])?;
    more.push(0)?;
    assert_eq!(rt;
        table_refusal(alloc, &more),
        Some(TdfFault::TooMany { at: 43 })
    );
    assert_eq!(rt; table_refusal(alloc, &[]), Some(TdfFault::NoEnd { at: 0 }));
    assert_eq!(rt; refusal(alloc, &[2]), Some(TdfFault::BadVersion));
    Ok(())
}

/// The codes and dimensions of tables with one field, whose dimension is at 34, and the refusals of the tables.
const DIMENSIONS: [(u8, u32, Option<TdfFault>); 11] = [
    (1, 16_384, None),
    (1, 16_385, Some(TdfFault::TooMany { at: 34 })),
    (7, 8_192, None),
    (7, 8_193, Some(TdfFault::TooMany { at: 34 })),
    (11, 16_384, None),
    (11, 16_385, Some(TdfFault::TooMany { at: 34 })),
    (16, 16_384, None),
    (16, 16_385, Some(TdfFault::TooMany { at: 34 })),
    (1, u32::MAX, Some(TdfFault::TooMany { at: 34 })),
    (26, 1, Some(TdfFault::BadType { at: 23 })),
    (0x80, 1, Some(TdfFault::BadType { at: 23 })),
];

fn dimensions_are_judged(
    alloc: Global,
    cases: &[(u8, u32, Option<TdfFault>)],
) -> Result<bool, Fail> {
    for case in cases {
        let table = table_of(alloc, case.0, b"V", case.1)?;
        if table_refusal(alloc, &table) != case.2 {
            return Ok(false);
        }
    }
    Ok(true)
}

#[test]
fn limits_of_values_and_record_bytes(rt: HostRuntime) -> Result<(), Fail> {
    assert!(rt; dimensions_are_judged(rt.alloc(), &DIMENSIONS)?);
    Ok(())
}

#[test]
fn the_values_of_all_fields_count_together(rt: HostRuntime) -> Result<(), Fail> {
    let alloc = rt.alloc();
    let mut two = Vec::from_slice(alloc, &HEADER)?;
    push_field(&mut two, 1, b"V", 16_384)?;
    push_field(&mut two, 11, b"V", 0)?;
    two.push(0)?;
    let past = Some(TdfFault::TooMany { at: 53 });
    assert_eq!(rt; table_refusal(alloc, &two), past);
    Ok(())
}

#[test]
fn a_table_with_a_text_of_any_length(rt: HostRuntime) -> Result<(), Fail> {
    let bytes = table_of(rt.alloc(), 16, b"V", 2)?;
    let read = Table::read(rt.alloc(), &bytes).ok().ok_or("a table")?;
    assert_eq!(rt; read.layout(), Err(Uncollectable));
    Ok(())
}

/// A table of 42 bytes and a name of this length.
fn table_with_name(alloc: Global, len: usize) -> Result<Vec<u8>, Fail> {
    let name = Vec::from_elem(alloc, 0x56u8, len)?;
    table_of(alloc, 1, &name, 1)
}

/// The refusal of 1,024 fields of 19 bytes each and what follows them.
fn after_most_fields(alloc: Global, tail: &[u8]) -> Result<Option<TdfFault>, Fail> {
    let mut table = Vec::from_slice(alloc, &HEADER)?;
    for _ in 0..1024 {
        push_field(&mut table, 1, b"V", 1)?;
    }
    table.extend_from_slice(tail)?;
    Ok(table_refusal(alloc, &table))
}

#[test]
fn limit_of_fields(rt: HostRuntime) -> Result<(), Fail> {
    let alloc = rt.alloc();
    let at = 19_479;
    assert_eq!(rt; after_most_fields(alloc, &[0])?, None);
    assert_eq!(rt;
        after_most_fields(alloc, &[])?,
        Some(TdfFault::Short { at })
    );
    assert_eq!(rt;
        after_most_fields(alloc, &[1])?,
        Some(TdfFault::TooMany { at })
    );
    assert_eq!(rt;
        after_most_fields(alloc, &[26])?,
        Some(TdfFault::BadType { at })
    );
    Ok(())
}

/// The refusal of a table with a name of this length, of which the first bytes alone are there.
fn with_name(alloc: Global, name: usize, len: usize) -> Result<Option<TdfFault>, Fail> {
    let table = table_with_name(alloc, name)?;
    Ok(table_refusal(alloc, table.get(..len).ok_or("a table")?))
}

#[test]
fn limit_of_a_tables_bytes(rt: HostRuntime) -> Result<(), Fail> {
    let alloc = rt.alloc();
    let past = Some(TdfFault::TooMany { at: 60_000 });
    assert_eq!(rt; with_name(alloc, 59_958, 60_000)?, None);
    assert_eq!(rt; with_name(alloc, 59_959, 60_001)?, past);
    let short = Some(TdfFault::Short { at: 60_000 });
    assert_eq!(rt; with_name(alloc, 59_959, 60_000)?, short);
    // The name begins before the limit and ends after it, or nowhere.
    assert_eq!(rt; with_name(alloc, 60_058, 60_100)?, past);
    let endless = Some(TdfFault::NoEnd { at: 24 });
    assert_eq!(rt; with_name(alloc, 60_058, 60_050)?, endless);
    Ok(())
}

/// The refusal of a file of 255 tables of 24 bytes each, and what follows them.
fn after_most_tables(alloc: Global, tail: &[u8]) -> Result<Option<TdfFault>, Fail> {
    let mut file = Vec::from_slice(alloc, &[1])?;
    for _ in 0..255 {
        file.extend_from_slice(&HEADER)?;
        file.push(0)?;
    }
    file.extend_from_slice(tail)?;
    Ok(refusal(alloc, &file))
}

#[test]
fn limit_of_tables(rt: HostRuntime) -> Result<(), Fail> {
    let alloc = rt.alloc();
    let at = 6_121;
    assert_eq!(rt; after_most_tables(alloc, &[])?, None);
    assert_eq!(rt;
        after_most_tables(alloc, b"T")?,
        Some(TdfFault::NoEnd { at })
    );
    assert_eq!(rt;
        after_most_tables(alloc, b"T\0")?,
        Some(TdfFault::TooMany { at })
    );
    Ok(())
}

/// The refusal of a file of four tables of 60,000 bytes, one with a name of this length, and what follows.
fn in_long_file(alloc: Global, name: usize, tail: &[u8]) -> Result<Option<TdfFault>, Fail> {
    let mut file = Vec::from_slice(alloc, &[1])?;
    for _ in 0..4 {
        file.extend_from_slice(&table_with_name(alloc, 59_958)?)?;
    }
    file.extend_from_slice(&table_with_name(alloc, name)?)?;
    file.extend_from_slice(tail)?;
    Ok(refusal(alloc, &file))
}

#[test]
fn limit_of_a_files_bytes(rt: HostRuntime) -> Result<(), Fail> {
    let alloc = rt.alloc();
    let at = 262_144;
    assert_eq!(rt; in_long_file(alloc, 22_101, &[])?, None);
    assert_eq!(rt;
        in_long_file(alloc, 22_101, b"T")?,
        Some(TdfFault::NoEnd { at })
    );
    assert_eq!(rt;
        in_long_file(alloc, 22_101, b"T\0")?,
        Some(TdfFault::TooMany { at })
    );
    assert_eq!(rt;
        in_long_file(alloc, 22_102, &[])?,
        Some(TdfFault::TooMany { at })
    );
    Ok(())
}

/// A table N of 5 records each minute, whose one field has two aliases, all texts and two sub-dimensions.
const MINUTES: [u8; 61] = [
    0x4E, 0, 0, 0, 0, 5, 14, 0, 0, 0, 0, 0, 0, 0, 1, 0, 0, 0, 0x3C, 0, 0, 0, 0, // header
    0x87, b'A', b'b', 0, b'x', 0, b'y', 0, 0, b'A', b'v', b'g', 0, b'm', 0, b'd', 0, // texts
    0, 0, 0, 1, 0, 0, 0, 6, 0, 0, 0, 2, 0, 0, 0, 3, 0, 0, 0, 0, 0, // numbers
];

#[test]
fn two_tables_of_one_name(rt: HostRuntime) -> Result<(), Fail> {
    let alloc = rt.alloc();
    let mut file = Vec::from_slice(alloc, &[1])?;
    file.extend_from_slice(&MINUTES)?;
    file.extend_from_slice(&[0x4E, 0])?;
    file.extend_from_slice(&HEADER[2..])?;
    file.push(0)?;
    let tables = Definitions::read(alloc, &file).ok().ok_or("a file")?;
    assert_eq!(rt; tables.count(), 2);
    assert_eq!(rt; tables.by_name(b"N"), Some(TableNo(1)));
    let first = tables.table(TableNo(1)).ok_or("a table")?;
    assert_eq!(rt; first.bytes(), MINUTES.as_slice());
    let layout = first.layout().ok().ok_or("a layout")?;
    assert_eq!(rt; layout.record_len, 12);
    assert!(rt; !layout.event);
    assert_eq!(rt; layout.interval, Nsec { sec: 60, nano: 0 });
    let field = first.field(0).ok_or("a field")?;
    assert_eq!(rt; field.kind, 7);
    assert!(rt; field.read_only);
    assert_eq!(rt; field.name, b"Ab".as_slice());
    assert_eq!(rt; field.dimension, 6);
    let second = tables.table(TableNo(2)).ok_or("a table")?;
    assert_eq!(rt; second.size(), 1);
    assert_eq!(rt; second.fields(), 0);
    assert_eq!(rt; second.layout().ok().ok_or("a layout")?.record_len, 0);
    Ok(())
}

/// The refusal of a table with another number at a place.
fn with_number(
    alloc: Global,
    table: &[u8],
    at: usize,
    number: u32,
) -> Result<Option<TdfFault>, Fail> {
    let mut other = Vec::from_slice(alloc, table.get(..at).ok_or("a place")?)?;
    other.extend_from_slice(&number.to_be_bytes())?;
    other.extend_from_slice(table.get(other.len()..).ok_or("the rest")?)?;
    Ok(table_refusal(alloc, &other))
}

#[test]
fn intervals_are_no_wild_times(rt: HostRuntime) -> Result<(), Fail> {
    let alloc = rt.alloc();
    // The interval is the item at 15; the time into it, at 7, may be any.
    let refused = Some(TdfFault::BadType { at: 15 });
    assert_eq!(rt; with_number(alloc, &MINUTES, 15, 0x7FFF_FFFF)?, None);
    assert_eq!(rt; with_number(alloc, &MINUTES, 15, 0xFFFF_FFFF)?, refused);
    assert_eq!(rt; with_number(alloc, &MINUTES, 19, 999_999_999)?, None);
    assert_eq!(rt; with_number(alloc, &MINUTES, 19, 1_000_000_000)?, refused);
    assert_eq!(rt; with_number(alloc, &MINUTES, 19, 0xFFFF_FFFF)?, refused);
    assert_eq!(rt; with_number(alloc, &MINUTES, 11, 0xFFFF_FFFF)?, None);
    Ok(())
}
