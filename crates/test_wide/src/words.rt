//! Records as words, and their data in hexadecimal.
use dns_name::Name;
use dns_rdata::RData;
use record_text::{Cause, Front};
use std::alloc::Global;
use wide_text::{read_wide_data, read_wide_front, seconds, write_wide_data, write_wide_type};
use zone_lexing::{Entries, Word};

/// What stands after an owner, and the data (RFC 4034, 5.4; RFC 8659, 4.1; RFC 7553, 4; RFC 4701, 3.6, and other examples).
const RECORDS: [(&str, &str); 34] = [
    ("HINFO \"INTEL-386\" UNIX", "09494e54454c2d33383604554e4958"),
    (
        "CAA 0 issue \"letsencrypt.org\"",
        "000569737375656c657473656e63727970742e6f7267",
    ),
    ("IN 1h CAA 128 tbs \"Unknown\"", "8003746273556e6b6e6f776e"),
    (
        "NAPTR 10 20 \"u\" \"E2U+sip\" \"!^.*$!sip:info@example.com!\" .",
        "000a00140175074532552b7369701b215e2e2a24217369703a696e666f406578616d706c652e636f6d2100",
    ),
    (
        "URI 10 1 \"ftp://ftp1.example.com/public\"",
        "000a00016674703a2f2f667470312e6578616d706c652e636f6d2f7075626c6963",
    ),
    (
        "DS 60485 RSASHA1 1 2BB183AF5F22588179A53B0A 98631FAD1A292118",
        "ec4505012bb183af5f22588179a53b0a98631fad1a292118",
    ),
    (
        "CDS 60485 5 1 2BB183AF5F22588179A53B0A98631FAD1A292118",
        "ec4505012bb183af5f22588179a53b0a98631fad1a292118",
    ),
    (
        "dhcid AAIBY2/AuCccgoJbsaxcQc9TUapptP69lOjxfNuVAA2kjEA=",
        "000201636fc0b8271c82825bb1ac5c41cf5351aa69b4febd94e8f17cdb95000da48c40",
    ),
    (
        "DHCID ( AAIBY2/AuCccgoJbsaxcQc9TUapptP69l OjxfNuVAA2kjEA= )",
        "000201636fc0b8271c82825bb1ac5c41cf5351aa69b4febd94e8f17cdb95000da48c40",
    ),
    ("CERT PKIX 0 RSASHA256 AQID", "0001000008010203"),
    ("OPENPGPKEY AQIDBA==", "01020304"),
    (
        "TLSA 3 1 1 ( 0123456789abcdef0123456789ABCDEF 0123456789abcdef0123456789abcdef )",
        "0301010123456789abcdef0123456789abcdef0123456789abcdef0123456789abcdef",
    ),
    ("SSHFP 4 2 0 1 23", "04020123"),
    (
        "HTTPS 0 svc.example.net.",
        "0000037376630765 78616d706c65036e657400",
    ),
    (
        "HTTPS 1 . alpn=h2,h3 ipv4hint=192.0.2.3",
        "0001000001000602683202683300040004c0000203",
    ),
    (
        "SVCB 16 foo.example.org. alpn=\"f\\\\\\\\oo\\\\,bar,h2\"",
        "001003666f6f076578616d706c65036f7267000001000c08665c6f6f2c626172026832",
    ),
    (
        "SVCB 16 foo.example.org. mandatory=alpn,ipv4hint alpn=h2,h3-19 ipv4hint=192.0.2.1",
        "001003666f6f076578616d706c65036f7267000000000400010004000100090268320568332d313900040004c0000201",
    ),
    (
        "SVCB 16 foo.example.org. alpn=h2,h3-19 mandatory=ipv4hint,alpn ipv4hint=192.0.2.1",
        "001003666f6f076578616d706c65036f7267000000000400010004000100090268320568332d313900040004c0000201",
    ),
    (
        "HTTPS 1 . port=53 ech=AQID alpn=h2",
        "000100 00010003026832 000300020035 00050003010203",
    ),
    (
        "SVCB 1 foo.example.com. port=53",
        "000103666f6f076578616d706c6503636f6d00000300020035",
    ),
    (
        "SVCB 1 foo.example.com. key667=\"hello\\210qoo\"",
        "000103666f6f076578616d706c6503636f6d00029b000968656c6c6fd2716f6f",
    ),
    (
        "HTTPS 1 . no-default-alpn= ech=AQID ipv6hint=\"2001:db8::1,2001:db8::53:1\"",
        "000100 00020000 00050003010203 0006002020010db800000000000000000000000120010db8000000000000000000530001",
    ),
    (
        "LOC 42 21 54 N 71 06 18 W -24m 30m",
        "0033161389172dd070be15f000988d20",
    ),
    (
        "LOC 90 S 180 E 42849672.95 90000000.00m 0.01m 0.5",
        "009910516cb02700a69fb200ffffffff",
    ),
    ("EUI48 00-00-5e-00-53-2a", "00005e00532a"),
    ("EUI64 00-00-5E-ef-10-00-00-2A", "00005eef1000002a"),
    ("DNSKEY 256 3 5 AQPS", "0100030501 03d2"),
    ("DNAME Example.NET.", "074578616d706c65034e455400"),
    ("AFSDB 1 a.", "0001016100"),
    ("SPF \"v=spf1 \" -all", "07763d737066312004 2d616c6c"),
    ("MX \\# 7 000A 0141015800", "000a 0161017800"),
    ("TYPE2 \\# 5 0141015A00", "0161017a00"),
    ("SPF \\# 3 014100", "014100"),
    (
        "SOA a. b. 1 2h 15m 2W 5m",
        "016100016200 00000001 00001c20 00000384 00127500 0000012c",
    ),
];

/// Data in octets, and its words (RFC 1876, 4; RFC 9460, D), or the same where it isn't of its type's form.
const WRITTEN: [(&str, &str); 14] = [
    (
        "TYPE29 \\# 16 0033161389172dd070be15f000988d20",
        "LOC 42 21 54.000 N 71 6 18.000 W -24.00m 30.00m 10000.00m 10.00m",
    ),
    (
        "TYPE29 \\# 16 00121613791b7d2898e6486800989a68",
        "LOC 32 7 19.000 S 116 2 25.000 E 10.00m 1.00m 10000.00m 10.00m",
    ),
    (
        "TYPE29 \\# 16 009910516cb02700a69fb200ffffffff",
        "LOC 90 0 0.000 S 180 0 0.000 E 42849672.95m 90000000.00m 0.01m 0.50m",
    ),
    (
        "TYPE29 \\# 16 0133161389172dd070be15f000988d20",
        "LOC \\# 16 0133161389172dd070be15f000988d20",
    ),
    (
        "TYPE29 \\# 16 0003161389172dd070be15f000988d20",
        "LOC \\# 16 0003161389172dd070be15f000988d20",
    ),
    ("TYPE64 \\# 3 000100", "SVCB 1 ."),
    (
        "TYPE64 \\# 35 001003666f6f076578616d706c65036f7267000001000c08665c6f6f2c626172026832",
        "SVCB 16 foo.example.org. alpn=f\\\\\\\\oo\\\\,bar,h2",
    ),
    (
        "TYPE64 \\# 48 001003666f6f076578616d706c65036f7267000000000400010004000100090268320568332d313900040004c0000201",
        "SVCB 16 foo.example.org. mandatory=alpn,ipv4hint alpn=h2,h3-19 ipv4hint=192.0.2.1",
    ),
    (
        "TYPE64 \\# 32 000103666f6f076578616d706c6503636f6d00029b000968656c6c6fd2716f6f",
        "SVCB 1 foo.example.com. key667=hello\\210qoo",
    ),
    (
        "TYPE65 \\# 40 000100000200000003000220fb00050003010203000600102001 0db8000000000000000000000001",
        "HTTPS 1 . no-default-alpn port=8443 ech=AQID ipv6hint=2001:db8:0:0:0:0:0:1",
    ),
    (
        "TYPE65 \\# 12 000100 029b0005 20223b5c28",
        "HTTPS 1 . key667=\\032\\\"\\;\\\\\\(",
    ),
    (
        "TYPE65 \\# 15 000100 000300020035 000300020035",
        "HTTPS \\# 15 000100000300020035000300020035",
    ),
    ("TYPE65 \\# 7 000100 00010000", "HTTPS \\# 7 00010000010000"),
    (
        "TYPE65 \\# 9 000100 000300030035",
        "HTTPS \\# 9 000100000300030035",
    ),
];

/// What is refused, and how.
const REFUSED: [(&str, Cause); 30] = [
    ("CAA 256 issue \"a\"", Cause::Number),
    ("CAA 0 \"issue\" \"a\"", Cause::BadData),
    ("CAA 0 is-sue \"a\"", Cause::BadData),
    ("CAA 0 issue \"a\" \"b\"", Cause::BadData),
    ("CAA 0 issue", Cause::BadData),
    ("TLSA 3 1 1 012", Cause::BadData),
    ("TLSA 3 1 1", Cause::BadData),
    ("OPENPGPKEY AQIDBA", Cause::BadData),
    ("DS 1 RSA 1 00", Cause::Number),
    ("URI 1h 1 \"a\"", Cause::Number),
    ("HTTPS 1", Cause::BadData),
    ("HTTPS 1 . alpn", Cause::BadData),
    ("HTTPS 1 . port=65536", Cause::Number),
    ("HTTPS 1 . port=53 port=54", Cause::BadData),
    ("HTTPS 1 . port=53 alpn=h2 port=53", Cause::BadData),
    ("HTTPS 1 . mandatory=port,alpn,port", Cause::BadData),
    ("HTTPS 1 . mandatory=mandatory", Cause::BadData),
    ("HTTPS 1 . other=1", Cause::BadData),
    ("HTTPS 1 . ipv4hint=192.0.2", Cause::BadData),
    ("HTTPS 1 . alpn \"h2\"", Cause::BadData),
    ("LOC 91 N 0 E 0m", Cause::Number),
    ("LOC 1 N 0 E", Cause::BadData),
    ("EUI48 00-00-5e-00-53", Cause::BadData),
    ("EUI48 00-00-5e-00-53-2a-00", Cause::BadData),
    ("EUI48 00:00:5e:00:53:2a", Cause::BadData),
    ("EUI64 \"00-00-5e-ef-10-00-00-2a\"", Cause::BadData),
    ("SOA a. b. 1h 1 1 1 1", Cause::Number),
    ("TYPE257 0 issue", Cause::BadData),
    ("MX \\# 4 000ac00c", Cause::BadData),
    ("MX \\# 6 000a014100", Cause::BadData),
];

/// Times, and their seconds; None where they are none.
const TIMES: [(&str, Option<u32>); 12] = [
    ("1h30m", Some(5_400)),
    ("2W", Some(1_209_600)),
    ("1d12h", Some(129_600)),
    ("1w2d3h4m5s", Some(788_645)),
    ("90M", Some(5_400)),
    ("0300", Some(300)),
    ("2147483647s", Some(2_147_483_647)),
    ("2147483648", None),
    ("3551W", None),
    ("1h30", None),
    ("h", None),
    ("1.5h", None),
];

/// The data that a text after an owner stands for.
fn data_of(alloc: Global, text: &str) -> Option<Result<RData, Cause>> {
    let mut words = Vec::new(alloc);
    let mut entries = Entries::new(text.as_bytes());
    entries.next(&mut words).ok()??;
    match read_wide_front(words.as_slice()) {
        Ok(front) => Some(data_after(alloc, &front)),
        Err(cause) => Some(Err(cause)),
    }
}

/// The data of the words after a front.
fn data_after(alloc: Global, front: &Front<'_, '_>) -> Result<RData, Cause> {
    read_wide_data(alloc, front.rtype, front.words, &Name::root())
}

/// A record's type and data as words.
fn text_of(alloc: Global, rdata: &RData) -> Option<String> {
    let mut text = String::new(alloc);
    write_wide_type(&mut text, rdata.rtype()).ok()?;
    write_wide_data(alloc, &mut text, rdata).ok()?;
    Some(text)
}

/// Digits without their spaces.
fn packed(alloc: Global, text: &str) -> Option<Vec<u8>> {
    let mut digits = Vec::new(alloc);
    for octet in text.as_bytes() {
        if *octet != b' ' {
            digits.push(*octet).ok()?;
        }
    }
    hex::decode(alloc, digits.as_slice()).ok()
}

/// Whether a text is read as this data, and what is written of it is read as it again.
fn is_read(alloc: Global, text: &str, digits: &str) -> Option<bool> {
    let octets = packed(alloc, digits)?;
    let rdata = data_of(alloc, text)?.ok()?;
    let written = text_of(alloc, &rdata)?;
    let again = data_of(alloc, written.as_str())?.ok()?;
    Some(rdata.octets() == octets.as_slice() && again.octets() == octets.as_slice())
}

#[test]
fn records(rt: HostRuntime) {
    for (text, digits) in RECORDS {
        assert_eq!(rt; is_read(rt.alloc(), text, digits), Some(true), "{text}");
    }
}

/// Whether these words are written of data.
fn is_written(alloc: Global, text: &str, words: &str) -> Option<bool> {
    let rdata = data_of(alloc, text)?.ok()?;
    Some(text_of(alloc, &rdata)?.as_str() == words)
}

#[test]
fn written(rt: HostRuntime) {
    for (text, words) in WRITTEN {
        assert_eq!(rt; is_written(rt.alloc(), text, words), Some(true), "{text}");
    }
}

#[test]
fn refused(rt: HostRuntime) {
    for (text, cause) in REFUSED {
        let read = data_of(rt.alloc(), text);
        assert!(rt;
            matches!(read, Some(Err(fault)) if fault == cause),
            "{text}"
        );
    }
}

#[test]
fn times(rt: HostRuntime) {
    for (text, own) in TIMES {
        assert_eq!(rt;
            seconds(Word::Plain(text.as_bytes()), 2_147_483_647).ok(),
            own,
            "{text}"
        );
    }
}
