// What comes of small documents, lines and texts.
use crate::table::first_one_line;
use crate::*;
use std::test::Fail;

#[test]
fn two_tables(rt: HostRuntime) -> Result<(), Fail> {
    let found = find_tables(
        rt.alloc(),
        b"= T\n\n|===\n|a\n|===\ntext\n,====\nb,c\n\n|===\n,====",
    )?;
    assert_eq!(rt; found.unclosed, None);
    assert!(rt; found.tables.len() == 2);
    let first = found.tables[0];
    assert_eq!(rt;
        (first.open_line, first.content_line, first.close_line),
        (3, 4, 5)
    );
    assert_eq!(rt; (first.start, first.end), (10, 13));
    assert_eq!(rt; (first.mark, first.separator), (b'|', b'|'));
    let second = found.tables[1];
    assert_eq!(rt; (second.open_line, second.close_line), (7, 11));
    assert_eq!(rt; (second.start, second.end), (29, 39));
    assert_eq!(rt; (second.separator, second.first_one_line), (b',', true));
    Ok(())
}

#[test]
fn never_closed(rt: HostRuntime) -> Result<(), Fail> {
    let found = find_tables(rt.alloc(), b"|===\n|a\n|===\n\n[cols=2]\n!===\n|===\n")?;
    assert_eq!(rt; (found.tables.len(), found.unclosed), (1, Some(6)));
    Ok(())
}

#[test]
fn verbatim(rt: HostRuntime) -> Result<(), Fail> {
    let found = find_tables(rt.alloc(), b"----\n|===\n----\n\n.....\n|===\n....\n|===\n")?;
    assert_eq!(rt; (found.tables.len(), found.unclosed), (0, None));
    Ok(())
}

#[test]
fn nothing_found(rt: HostRuntime) -> Result<(), Fail> {
    assert_eq!(rt; find_tables(rt.alloc(), b"")?.tables.len(), 0);
    assert_eq!(rt; find_tables(rt.alloc(), b"\n|==\n ,===\n")?.tables.len(), 0);
    Ok(())
}

#[test]
fn in_force(rt: HostRuntime) -> Result<(), Fail> {
    let text =
        b"[cols=2]\n.T\n\n[%header]\n[[x]]\n// c\n:=== \t\r\na:b\r\n:===\r\n[cols=3]\ntext\n|===\n|===\n";
    let found = find_tables(rt.alloc(), text)?;
    assert!(rt; found.tables.len() == 2);
    let first = found.tables[0];
    assert_eq!(rt; (first.columns.count, first.options.header), (2, true));
    assert_eq!(rt; (first.open_line, first.close_line), (7, 9));
    assert_eq!(rt; first.format, Format::Dsv);
    let second = found.tables[1];
    assert_eq!(rt; (second.columns.count, second.options.header), (0, false));
    assert_eq!(rt; second.end, second.start);
    Ok(())
}

#[test]
fn attribute_lines(rt: HostRuntime) {
    let a = Attributes::NONE.with_line(
        b"[cols=3,options=\"header,footer\",format=csv,separator=;]",
    );
    assert_eq!(rt;
        (a.columns.count, a.options.header, a.options.footer),
        (3, true, true)
    );
    assert_eq!(rt; (a.options.noheader, a.separator), (false, Some(b';')));
    assert_eq!(rt; a.format, Some(FormatName::Csv));
    let b = a.with_line(b"[%noheader.role, cols = '1;2*m;a' , separator=\\t]");
    assert_eq!(rt;
        (b.columns.count, b.options.noheader, b.separator),
        (4, true, Some(b'\t'))
    );
    assert!(rt;
        b.columns.kept()
            == [
                Style::Default.number(),
                Style::Monospace.number(),
                Style::Monospace.number(),
                Style::AsciiDoc.number()
            ]
            .as_slice()
    );
}

#[test]
fn many_columns(rt: HostRuntime) {
    let a = Attributes::NONE.with_line(b"[cols=\"9*s,99999999999999999999999*\",opts=header] \r");
    assert_eq!(rt;
        (a.columns.count, a.columns.kept().len()),
        (usize::MAX, MAX_STYLES)
    );
    assert!(rt; a.options.header);
    assert_eq!(rt; Attributes::NONE.with_line(b"[[cols=2]]").columns.count, 0);
}

#[test]
fn columns_by_hand(rt: HostRuntime) {
    let columns = Columns {
        count: 2,
        styles: [9; MAX_STYLES],
    };
    assert!(rt; columns.kept() == [9, 9].as_slice());
    let given = Attributes {
        columns,
        ..Attributes::NONE
    };
    assert!(rt; given.with_line(b"[%footer]").columns.kept() == [9, 9].as_slice());
}

#[test]
fn first_paragraphs(rt: HostRuntime) {
    assert!(rt; first_one_line(b"a"));
    assert!(rt; first_one_line(b" \n\na\n\t\r\nb\n"));
    assert!(rt; !first_one_line(b"a\nb\n\n"));
    assert!(rt; !first_one_line(b"\n \n"));
}

#[test]
fn places(rt: HostRuntime) {
    let at = place_of(b"ab\nc\n", 4);
    assert_eq!(rt; (at.line, at.column), (2, 2));
    let behind = place_of(b"ab\nc\n", 9);
    assert_eq!(rt; (behind.line, behind.column), (3, 1));
}
