//! Schemas by their names.
use art_key::{Column, Kind, Schema, SchemaFault};
use std::process::Abort;
use std::test::*;

/// The schema has one column, of this kind.
fn check_column(rt: &impl Abort, name: &str, kind: Kind, descends: bool) {
    let schema = Schema::parse(name).ok().expect(rt, "a schema");
    assert_eq!(rt; schema.columns(), [Column { kind, descends }].as_slice());
    assert_eq!(rt; schema.order().as_slice(), [descends].as_slice());
}

#[test]
fn columns_stand_in_order(rt: HostRuntime) {
    let schema = Schema::parse("bool,u8-,text3").ok().expect(&rt, "a schema");
    let (kinds, order) = ([Kind::Bool, Kind::U8, Kind::Text(3)], [false, true, false]);
    assert_eq!(rt; schema.columns().len(), 3);
    for (column, kind) in schema.columns().iter().zip(kinds.iter()) {
        assert_eq!(rt; column.kind, *kind);
    }
    assert_eq!(rt; schema.order().as_slice(), order.as_slice());
}

#[test]
fn kinds_by_their_names(rt: HostRuntime) {
    for (name, kind) in [
        ("bool", Kind::Bool),
        ("u8", Kind::U8),
        ("u16", Kind::U16),
        ("u32", Kind::U32),
        ("u64", Kind::U64),
        ("i8", Kind::I8),
        ("i16", Kind::I16),
        ("i32", Kind::I32),
        ("i64", Kind::I64),
        ("text1", Kind::Text(1)),
        ("text9", Kind::Text(9)),
        ("text10", Kind::Text(10)),
        ("text24", Kind::Text(24)),
    ] {
        check_column(&rt, name, kind, false);
    }
}

#[test]
fn a_dash_reverses_any_kind(rt: HostRuntime) {
    for (name, kind) in [
        ("bool-", Kind::Bool),
        ("u8-", Kind::U8),
        ("u64-", Kind::U64),
        ("i16-", Kind::I16),
        ("text8-", Kind::Text(8)),
        ("text24-", Kind::Text(24)),
    ] {
        check_column(&rt, name, kind, true);
    }
}

#[test]
fn names_of_no_kind(rt: HostRuntime) {
    let names = [
        "text0", "text", "text01", "text25", "text+1", "text 1", "Text1", "u128", " u8", "u24",
        "text100", "u8--", "-", "-u8", "u8 -", "u8- ", "text-", "text-8",
    ];
    for name in names {
        let fault = Schema::parse(name);
        assert!(rt;
            matches!(fault, Err(SchemaFault::BadColumn(0))),
            "at {name}"
        );
    }
}

#[test]
fn first_bad_column_is_told_at_its_place(rt: HostRuntime) {
    for text in [",u8", ",", ",,"] {
        let fault = Schema::parse(text);
        assert!(rt;
            matches!(fault, Err(SchemaFault::BadColumn(0))),
            "at {text}"
        );
    }
    for text in ["u8,u24", "u8,", "u8,,u9", "u8, u8", "u8,-", "u8-,u8--"] {
        let fault = Schema::parse(text);
        assert!(rt;
            matches!(fault, Err(SchemaFault::BadColumn(1))),
            "at {text}"
        );
    }
}

#[test]
fn no_text_has_no_columns(rt: HostRuntime) {
    assert!(rt; matches!(Schema::parse(""), Err(SchemaFault::NoColumns)));
}

#[test]
fn ninth_column_is_too_many(rt: HostRuntime) {
    let texts = [
        "u8,u8,u8,u8,u8,u8,u8,u8,u8",
        "u8,u9,u8,u8,u8,u8,u8,u8,u8",
        ",,,,,,,,",
    ];
    for text in texts {
        let fault = Schema::parse(text);
        assert!(rt;
            matches!(fault, Err(SchemaFault::TooManyColumns)),
            "at {text}"
        );
    }
    assert!(rt; Schema::parse("u8,u8,u8,u8,u8,u8,u8,u8").is_ok());
}

#[test]
fn sixty_four_bytes_pass(rt: HostRuntime) {
    assert!(rt; Schema::parse("text24,text6").is_ok());
    assert!(rt; Schema::parse("text24-,text6-").is_ok());
    assert!(rt; Schema::parse("u64,u64,u64,u64,u64,u64,u64,u64").is_ok());
    for text in ["text24,text7", "text24,text6,u8", "text24-,text7-"] {
        let fault = Schema::parse(text);
        assert!(rt; matches!(fault, Err(SchemaFault::KeyTooWide)), "at {text}");
    }
    assert!(rt;
        matches!(
            Schema::parse("text24,text24,u9"),
            Err(SchemaFault::BadColumn(2))
        )
    );
}
