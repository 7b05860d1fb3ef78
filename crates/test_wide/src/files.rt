//! Zone files with the files that they include, and the plain text that they are read as.
use dns_name::Name;
use master_file::{Cause, FileFault};
use std::alloc::Global;
use wide_file::{FilePath, IncludedFile, PlainText, WideCause, WideFault, plain_text};

/// A file as in use, with records of signers.
const FILE: &str = "$ttl 1h30m
@\tIN\tSOA\tNS1 Hostmaster ( 2026112801 2h
 15m 2W 5m )
\tRRSIG\tSOA 13 2 5400 20260102000000 20260101000000 1 example.com. AAAA
\tNS\tns1

; a remark
NS1\t5m IN A 192.0.2.1
_443._tcp.www 1d TLSA 3 1 1 ( 01
 23 ) ; digits in two words
www NSEC x A
$Origin Sub
@ TXT \"in sub\"
a 7 TYPE46 \\# 1 00
";

/// The same as plain text, under `example.com.`.
const PLAIN: &str = "
example.com. 5400 IN SOA ns1.example.com. hostmaster.example.com. 2026112801 7200 900 1209600 300


example.com. 5400 IN NS ns1.example.com.


ns1.example.com. 300 IN A 192.0.2.1
_443._tcp.www.example.com. 86400 IN TYPE52 \\# 5 0301010123



sub.example.com. 5400 IN TXT \"in sub\"
a.sub.example.com. 7 IN TYPE46 \\# 1 00
";

/// Files that are refused, and where.
const REFUSED: [(&str, u64, Cause); 10] = [
    ("$TTL 1h30", 1, Cause::Number),
    ("$TTL 3551W", 1, Cause::Number),
    ("$TTL 1h 1h", 1, Cause::BadData),
    ("\n$INCLUDE", 2, Cause::Directive),
    ("$INCLUDE a b c", 1, Cause::BadData),
    (" A 192.0.2.1", 1, Cause::NoOwner),
    ("x A 192.0.2.1", 1, Cause::NoTtl),
    ("x SOA a b 1 2 3 4 3551W", 1, Cause::NoTtl),
    ("\nx 1h RRSIG A \"13\n", 2, Cause::Unclosed),
    ("x 1h RRSIG A\nx 1h RRSI A\n", 2, Cause::UnknownType),
];

/// Files that are included, by their paths.
const INCLUDED: [(&str, &str); 6] = [
    (
        "hosts.inc",
        "a A 192.0.2.1\n$ORIGIN sub\n$TTL 7\nb A 192.0.2.2\n",
    ),
    (
        "sub/one.inc",
        "\n@ TXT \"one\"\n$INCLUDE two.inc\nc 9 TXT \"c\"\n",
    ),
    ("sub/two.inc", "@ TXT \"two\"\n 6 TXT \"x\"\n"),
    ("loop.inc", "$INCLUDE loop.inc\n"),
    ("unclosed.inc", "a A 192.0.2.1\nb TXT ( \"b\"\n"),
    (
        "marked.inc",
        "\u{feff}$TTL 8\nd RRSIG A 8 3 3600\nd A 192.0.2.4\n",
    ),
];

/// A file that includes files, with records of signers.
const INCLUDING: &str = "$TTL 5
@ SOA a b 1 2 3 4 5

@ NS a
$INCLUDE hosts.inc
  TXT \"still at the apex\"
$include \"sub/one.inc\" one
$INCLUDE marked.inc marked.test. ; with a mark

e A 192.0.2.5
";

/// The same as plain text, under `example.com.`.
const INCLUDING_PLAIN: &str = "
example.com. 5 IN SOA a.example.com. b.example.com. 1 2 3 4 5

example.com. 5 IN NS a.example.com.
a.example.com. 5 IN A 192.0.2.1


b.sub.example.com. 7 IN A 192.0.2.2
example.com. 5 IN TXT \"still at the apex\"
one.example.com. 5 IN TXT \"one\"
one.example.com. 5 IN TXT \"two\"
one.example.com. 6 IN TXT \"x\"
c.one.example.com. 9 IN TXT \"c\"
d.marked.test. 8 IN A 192.0.2.4
e.example.com. 5 IN A 192.0.2.5
";

/// The files and the lines of some lines of that text.
const PLACES: [(u64, &str, u64); 12] = [
    (0, "", 0),
    (1, "", 1),
    (4, "", 4),
    (5, "hosts.inc", 1),
    (8, "hosts.inc", 4),
    (9, "", 6),
    (10, "sub/one.inc", 2),
    (11, "sub/two.inc", 1),
    (12, "sub/two.inc", 2),
    (13, "sub/one.inc", 4),
    (14, "marked.inc", 3),
    (15, "", 10),
];

/// The plain text of a file under `example.com.`.
fn plain_of(alloc: Global, text: &str) -> Option<Result<PlainText, WideFault>> {
    let origin = Name::from_text(b"example.com.", &Name::root()).ok()?;
    let files = included(alloc)?;
    Some(plain_text(alloc, files.as_slice(), text.as_bytes(), &origin))
}

/// The files that are included.
fn included(alloc: Global) -> Option<Vec<IncludedFile>> {
    let mut files = Vec::new(alloc);
    for (path, text) in INCLUDED {
        let path = FilePath::of(alloc, path.as_bytes()).ok()?;
        let text = text.as_bytes().to_vec(alloc).ok()?;
        files.push(IncludedFile { path, text }).ok()?;
    }
    Some(files)
}

#[test]
fn file(rt: HostRuntime) {
    let Some(Ok(plain)) = plain_of(rt.alloc(), FILE) else {
        assert!(rt; false, "the file is read");
        return;
    };
    assert_eq!(rt; plain.text(), PLAIN);
    assert_eq!(rt; plain.left_out(), 2);
    assert_eq!(rt; plain.first_left_out().map(|place| place.line), Some(4));
}

#[test]
fn plain_text_stays(rt: HostRuntime) {
    let Some(Ok(plain)) = plain_of(rt.alloc(), PLAIN) else {
        assert!(rt; false, "the text is read");
        return;
    };
    assert_eq!(rt; plain.text(), PLAIN);
    assert_eq!(rt; plain.left_out(), 0);
}

#[test]
fn included_files(rt: HostRuntime) {
    let Some(Ok(plain)) = plain_of(rt.alloc(), INCLUDING) else {
        assert!(rt; false, "the file is read");
        return;
    };
    assert_eq!(rt; plain.text(), INCLUDING_PLAIN);
    assert_eq!(rt; plain.left_out(), 1);
    for (line, path, own) in PLACES {
        let Some((file, found)) = plain.place(line) else {
            assert!(rt; false, "{line}");
            return;
        };
        assert_eq!(rt; file.as_bytes(), path.as_bytes(), "{line}");
        assert_eq!(rt; found, own, "{line}");
    }
}

/// Files that can't be included, or have a fault: the file and the line of the fault.
const REFUSED_INCLUDED: [(&str, &str, u64, WideCause); 7] = [
    ("\n$INCLUDE other.inc", "", 2, WideCause::Include),
    ("$INCLUDE /hosts.inc", "", 1, WideCause::Include),
    ("$INCLUDE sub/../hosts.inc", "", 1, WideCause::Include),
    ("$INCLUDE \"\"", "", 1, WideCause::Include),
    ("$INCLUDE loop.inc", "loop.inc", 1, WideCause::Include),
    (
        "$TTL 5\n$INCLUDE unclosed.inc",
        "unclosed.inc",
        2,
        WideCause::Text(Cause::Unclosed),
    ),
    (
        "$INCLUDE hosts.inc",
        "hosts.inc",
        1,
        WideCause::Text(Cause::NoTtl),
    ),
];

#[test]
fn refused_included_files(rt: HostRuntime) {
    for (text, file, line, cause) in REFUSED_INCLUDED {
        let Some(Err(fault)) = plain_of(rt.alloc(), text) else {
            assert!(rt; false, "{text}");
            return;
        };
        assert_eq!(rt; fault.file.as_bytes(), file.as_bytes(), "{text}");
        assert_eq!(rt; fault.line, line, "{text}");
        assert!(rt; fault.cause == cause, "{text}");
    }
}

#[test]
fn refused_files(rt: HostRuntime) {
    for (text, line, cause) in REFUSED {
        let Some(Err(fault)) = plain_of(rt.alloc(), text) else {
            assert!(rt; false, "{text}");
            return;
        };
        assert_eq!(rt; fault.line, line, "{text}");
        assert!(rt; fault.cause == WideCause::Text(cause), "{text}");
    }
}
