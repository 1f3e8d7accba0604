//! Texts of values of each type, of times and of names.
use crate::{
    ESCAPED_MAX, TIME_TEXT_MAX, VALUE_TEXT_MAX, Value, ValuesOf, escape_into, text_into, time_into,
    values,
};
use pb_base::{Full, Nsec};
use pb_tdf::{ASCII, ASCIIZ, Table, value_bytes_of};
use std::alloc::Global;
use std::test::*;

/// The text of a value, where the bytes are one of its type.
fn text_of(value: Value, out: &mut [u8]) -> Option<usize> {
    let fits = match value_bytes_of(value.kind) {
        Some(len) => value.kind == ASCII || usize::from(len) == value.bytes.len(),
        None => false,
    };
    if !fits || value.kind == ASCIIZ {
        return None;
    }
    text_into(&value, out).ok()
}

/// The values, where the bytes are a record's.
fn values_in<'t, 'a>(table: &'t Table, bytes: &'a [u8]) -> Option<ValuesOf<'t, 'a>> {
    match table.layout() {
        Ok(layout) if layout.record_len as usize == bytes.len() => Some(values(table, bytes)),
        _ => None,
    }
}

/// A code, the bytes of a value of it, and its text.
type Case = (u8, &'static [u8], &'static [u8]);

/// One value of each type that a collected table may have.
const EACH_TYPE: [Case; 26] = [
    (1, &[0xFF], b"255"),
    (2, &[1, 0], b"256"),
    (3, &[0xFF, 0xFF, 0xFF, 0xFF], b"4294967295"),
    (4, &[0x80], b"-128"),
    (5, &[0xFF, 0xFE], b"-2"),
    (6, &[0x80, 0, 0, 0], b"-2147483648"),
    (7, &[0x49, 0x29], b"23.45"),
    (8, &[0, 1, 0x0A, 0xFF], b"00010AFF"),
    (9, &[0x3F, 0x80, 0, 0], b"3F800000"),
    (10, &[2], b"true"),
    (11, &[0x41, 0x20, 0x5C, 0, 0x42], b"A \\\\"),
    (12, &[0x3B, 0x9A, 0xCA, 0], b"2021-09-09 01:46:40"),
    (13, &[1, 2, 3, 4, 5, 6], b"010203040506"),
    (
        14,
        &[0xFF, 0xFF, 0xFF, 0xFF, 0x1D, 0xCD, 0x65, 0],
        b"1989-12-31 23:59:59.500000000",
    ),
    (15, &[0xA1, 0xB2, 0xC3], b"A1B2C3"),
    (17, &[0x0F], b"0F"),
    (18, &[0, 1, 2, 3, 4, 5, 6, 7], b"0001020304050607"),
    (19, &[0xAB, 0xCD], b"ABCD"),
    (20, &[0xDE, 0xAD, 0xBE, 0xEF], b"DEADBEEF"),
    (21, &[0, 0], b"0000"),
    (22, &[1, 0x23, 0x45, 0x67], b"01234567"),
    (
        23,
        &[0x89, 0xAB, 0xCD, 0xEF, 1, 0x23, 0x45, 0x67],
        b"89ABCDEF01234567",
    ),
    (24, &[0xFF, 0, 0xFF, 0], b"FF00FF00"),
    (
        25,
        &[0x10, 0x20, 0x30, 0x40, 0x50, 0x60, 0x70, 0x80],
        b"1020304050607080",
    ),
    (27, &[0x7F, 0x80], b"7F80"),
    (28, &[0, 0, 0, 1], b"00000001"),
];

/// A table T of events with a field of each code and dimension.
fn table_of(alloc: Global, fields: &[(u8, u8)]) -> Result<Table, Fail> {
    let mut bytes = Vec::from_slice(alloc, &[0x54, 0, 0, 0, 0, 1, 14])?;
    bytes.extend_from_slice(&[0; 16])?;
    for (kind, dimension) in fields {
        bytes.extend_from_slice(&[*kind, 0x56, 0, 0, 0, 0, 0, 0, 0, 0, 1, 0, 0, 0, *dimension])?;
        bytes.extend_from_slice(&[0; 4])?;
    }
    bytes.push(0)?;
    Ok(Table::read(alloc, &bytes).ok().ok_or("a table")?)
}

/// Whether the values of a record of these fields are those of the cases, with their texts.
fn has_values(alloc: Global, fields: &[(u8, u8)], cases: &[Case]) -> Result<bool, Fail> {
    let table = table_of(alloc, fields)?;
    let mut record = Vec::new(alloc);
    for case in cases {
        record.extend_from_slice(case.1)?;
    }
    let mut given = values_in(&table, &record).ok_or("a record")?;
    for case in cases {
        let value = given.next().ok_or("a value")?;
        if value.kind != case.0 || value.bytes != case.1 || !has_text(value, case.2) {
            return Ok(false);
        }
    }
    Ok(given.next().is_none())
}

/// Whether the value has this text, and nothing is written where there is room for one byte less.
fn has_text(value: Value, text: &[u8]) -> bool {
    let mut out = [0x55; VALUE_TEXT_MAX];
    let written = match text_of(value, &mut out) {
        Some(len) => out.get(..len) == Some(text),
        None => false,
    };
    let mut short = [0x55; VALUE_TEXT_MAX];
    let refused = match short.get_mut(..text.len().saturating_sub(1)) {
        Some(room) => text.is_empty() || text_of(value, room).is_none(),
        None => false,
    };
    written && refused && short == [0x55; VALUE_TEXT_MAX]
}

#[test]
fn one_field_of_each_type(rt: HostRuntime) -> Result<(), Fail> {
    let mut fields = Vec::new(rt.alloc());
    for (kind, _, _) in &EACH_TYPE {
        fields.push((*kind, if *kind == ASCII { 5 } else { 1 }))?;
    }
    let table = table_of(rt.alloc(), &fields)?;
    let layout = table.layout().ok().ok_or("a layout")?;
    assert_eq!(rt; layout.record_len, 98);
    assert!(rt; layout.event);
    assert!(rt; has_values(rt.alloc(), &fields, &EACH_TYPE)?);
    Ok(())
}

#[test]
fn fields_with_many_values_and_none(rt: HostRuntime) -> Result<(), Fail> {
    let fields = [(2, 0), (2, 2), (1, 0), (11, 0), (5, 1), (4, 0)];
    let given: [Case; 4] = [
        (2, &[1, 2], b"258"),
        (2, &[3, 4], b"772"),
        (11, &[], b""),
        (5, &[0x80, 0], b"-32768"),
    ];
    assert!(rt; has_values(rt.alloc(), &fields, &given)?);
    Ok(())
}

/// Values of the types with rules of their own.
const SINGLE: [Case; 17] = [
    (7, &[0xC9, 0x29], b"-23.45"),
    (7, &[0x80, 0], b"-0"),
    (7, &[0x60, 5], b"0.005"),
    (7, &[0x1F, 0xFF], b"INF"),
    (7, &[0x9F, 0xFF], b"-INF"),
    (7, &[0x9F, 0xFE], b"NAN"),
    (7, &[0x1F, 0xFE], b"8190"),
    (7, &[0x3F, 0xFF], b"819.1"),
    (7, &[0xFF, 0xFF], b"-8.191"),
    (7, &[0xA0, 0], b"-0.0"),
    (4, &[0x7F], b"127"),
    (6, &[0, 0, 0, 0], b"0"),
    (10, &[0], b"false"),
    (12, &[0x80, 0, 0, 0], b"1921-12-13 20:45:52"),
    (
        14,
        &[0, 0, 0, 0, 0xFF, 0xFF, 0xFF, 0xFF],
        b"00000000FFFFFFFF",
    ),
    (11, &[0x1F, 0x20, 0x7E, 0x7F, 0xFF], b"\\x1F ~\\x7F\\xFF"),
    (11, &[0, 0x41], b""),
];

fn have_texts(cases: &[Case]) -> bool {
    cases.iter().all(|case| {
        let value = Value {
            kind: case.0,
            bytes: case.1,
        };
        has_text(value, case.2)
    })
}

#[test]
fn texts_of_single_values(rt: HostRuntime) {
    assert!(rt; have_texts(&SINGLE));
}

/// Times, worked out by the calendar.
const TIMES: [(i32, i32, &[u8]); 21] = [
    (1_000_000_000, 0, b"2021-09-09 01:46:40"),
    (0, 0, b"1990-01-01 00:00:00"),
    (-1, 0, b"1989-12-31 23:59:59"),
    (i32::MIN, 0, b"1921-12-13 20:45:52"),
    (i32::MAX, 0, b"2058-01-19 03:14:07"),
    (320_675_405, 0, b"2000-02-29 12:30:05"),
    (320_716_800, 0, b"2000-03-01 00:00:00"),
    (1_078_099_199, 0, b"2024-02-29 23:59:59"),
    (1_078_099_200, 0, b"2024-03-01 00:00:00"),
    (1_046_476_799, 0, b"2023-02-28 23:59:59"),
    (1_046_476_800, 0, b"2023-03-01 00:00:00"),
    (315_532_799, 0, b"1999-12-31 23:59:59"),
    (2_145_830_400, 0, b"2057-12-31 00:00:00"),
    (-2_140_819_200, 0, b"1922-03-01 00:00:00"),
    (-2_077_747_200, 0, b"1924-02-29 00:00:00"),
    (-2_051_222_401, 0, b"1924-12-31 23:59:59"),
    (0, 1, b"1990-01-01 00:00:00.000000001"),
    (-1, 999_999_999, b"1989-12-31 23:59:59.999999999"),
    (0, 1_000_000_000, b"000000003B9ACA00"),
    (0, -1, b"00000000FFFFFFFF"),
    (i32::MIN, i32::MIN, b"8000000080000000"),
];

/// Whether the time has this text, and nothing is written where there is room for one byte less.
fn time_has_text(time: Nsec, text: &[u8]) -> bool {
    let mut out = [0x55; TIME_TEXT_MAX];
    let written = match time_into(time, &mut out) {
        Ok(len) => out.get(..len) == Some(text),
        Err(Full) => false,
    };
    let mut short = [0x55; TIME_TEXT_MAX];
    let refused = match short.get_mut(..text.len().saturating_sub(1)) {
        Some(room) => time_into(time, room) == Err(Full),
        None => false,
    };
    written && refused && short == [0x55; TIME_TEXT_MAX]
}

fn times_have_texts(times: &[(i32, i32, &[u8])]) -> bool {
    times.iter().all(|case| {
        let time = Nsec {
            sec: case.0,
            nano: case.1,
        };
        time_has_text(time, case.2)
    })
}

#[test]
fn texts_of_times(rt: HostRuntime) {
    assert!(rt; times_have_texts(&TIMES));
}

/// Whether this is the text of a name that is written in two pieces.
fn pieces_have_text(first: &[u8], second: &[u8], text: &[u8]) -> bool {
    let mut out = [0; 8 * ESCAPED_MAX];
    let Ok(len) = escape_into(first, &mut out) else {
        return false;
    };
    let Some(room) = out.get_mut(len..) else {
        return false;
    };
    let Ok(more) = escape_into(second, room) else {
        return false;
    };
    out.get(..len.saturating_add(more)) == Some(text)
}

#[test]
fn escaped_names(rt: HostRuntime) {
    let name = b"a b\\\x00\x7F~\xFF";
    let text = b"a\\x20b\\\\\\x00\\x7F~\\xFF";
    assert!(rt; pieces_have_text(name, b"", text));
    assert!(rt; pieces_have_text(b"a ", b"b\\\x00\x7F~\xFF", text));
    assert!(rt; pieces_have_text(b"a b\\", b"\x00\x7F~\xFF", text));
    let mut short = [0x55; 20];
    assert_eq!(rt; escape_into(name, &mut short), Err(Full));
    assert_eq!(rt; short, [0x55; 20]);
    assert_eq!(rt; escape_into(b"", &mut []), Ok(0));
}
