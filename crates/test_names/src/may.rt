//! What rules permit, and how rules are read.
use crate::made::name;
use dns_rdata::{Class, RType, RawRecord};
use rights::{Requestor, Rule, RuleFault, are_permitted, parse_rule};
use std::alloc::{AllocError, Global};
use std::net::IpAddr;

/// A request: the address that it comes from, whether by TCP, the owner and the type of each record of its update section, and whether it is permitted.
type Request = (&'static str, bool, &'static [(&'static str, u16)], bool);

/// An address of the host that most rules name, another, an update of an address, and one of text.
const OWN: &str = "192.0.2.1";

const OTHER: &str = "192.0.2.2";

const WWW_A: &[(&str, u16)] = &[("www.example.test", 1)];

const WWW_TXT: &[(&str, u16)] = &[("www.example.test", 16)];

/// Twenty sets of rules, with requests for example.test.
const SETS: [(&[&str], &[Request]); 20] = [
    (&[], &[(OWN, true, WWW_A, false), (OWN, true, &[], false)]),
    (
        &["192.0.2.1: update, transfer"],
        &[
            (OWN, false, WWW_A, true),
            (
                OWN,
                false,
                &[("example.test", 6), ("example.test", 2)],
                true,
            ),
            (OWN, false, &[("www.example.test", 255)], true),
            ("::ffff:192.0.2.1", false, WWW_A, true),
            (OTHER, true, WWW_A, false),
            (OTHER, true, &[], false),
        ],
    ),
    (&["192.0.2.1: transfer"], &[(OWN, true, WWW_A, false)]),
    (
        &["::ffff:192.0.2.1: update"],
        &[(OWN, false, WWW_A, true), ("::1", false, WWW_A, false)],
    ),
    (
        &["192.0.2.0/28: update at-or-below dyn.example.test. A AAAA TXT DHCID PTR"],
        &[
            ("192.0.2.15", false, &[("dyn.example.test", 1)], true),
            ("192.0.2.15", false, &[("h.DYN.example.test", 49)], true),
            ("192.0.2.16", false, &[("h.dyn.example.test", 1)], false),
            (OWN, false, &[("hdyn.example.test", 1)], false),
            (OWN, false, &[("h.dyn.example.test", 15)], false),
            (OWN, false, &[("h.dyn.example.test", 255)], false),
        ],
    ),
    (
        &["2001:db8::7: update exact _acme-challenge.www.example.test. TXT"],
        &[
            (
                "2001:db8::7",
                false,
                &[("_Acme-challenge.www.example.test", 16)],
                true,
            ),
            (
                "2001:db8::7",
                false,
                &[("x._acme-challenge.www.example.test", 16)],
                false,
            ),
            (
                "2001:db8::7",
                false,
                &[("_acme-challenge.www.example.test", 1)],
                false,
            ),
            (
                "2001:db8::8",
                false,
                &[("_acme-challenge.www.example.test", 16)],
                false,
            ),
        ],
    ),
    (
        &["192.0.2.1: update tcp"],
        &[(OWN, true, WWW_A, true), (OWN, false, WWW_A, false)],
    ),
    (
        &["0.0.0.0/0: update"],
        &[
            ("203.0.113.9", false, WWW_A, true),
            ("::1", false, WWW_A, false),
        ],
    ),
    (
        &["::/0: update"],
        &[
            ("2001:db8::1", false, WWW_A, true),
            (OWN, false, WWW_A, false),
        ],
    ),
    (
        &["128.0.0.0/1: update"],
        &[
            (OWN, false, WWW_A, true),
            ("127.0.0.1", false, WWW_A, false),
        ],
    ),
    (
        &["8000::/1: update"],
        &[
            ("ffff::", false, WWW_A, true),
            ("7fff::", false, WWW_A, false),
        ],
    ),
    (
        &["192.0.2.0/31: update"],
        &[(OWN, false, WWW_A, true), (OTHER, false, WWW_A, false)],
    ),
    (
        &["2001:db8::/32: update"],
        &[
            ("2001:db8:ffff::", false, WWW_A, true),
            ("2001:db9::", false, WWW_A, false),
        ],
    ),
    (
        &[
            "192.0.2.1: update exact www.example.test. A",
            "192.0.2.1: update exact a.example.test.",
        ],
        &[
            (
                OWN,
                false,
                &[("www.example.test", 1), ("a.example.test", 16)],
                true,
            ),
            (
                OWN,
                false,
                &[("www.example.test", 1), ("b.example.test", 1)],
                false,
            ),
            (OWN, false, WWW_TXT, false),
            (OWN, false, &[], true),
            (OTHER, false, &[], false),
        ],
    ),
    (
        &["192.0.2.1: update SOA NS"],
        &[
            (OWN, false, &[("sub.example.test", 2)], true),
            (OWN, false, &[("example.test", 2)], false),
            (OWN, false, &[("example.test", 6)], false),
        ],
    ),
    (
        &["192.0.2.1: update exact www.example.test."],
        &[
            (OWN, false, &[("www.example.test", 255)], true),
            (OWN, false, &[("example.test", 2)], false),
        ],
    ),
    (
        &["192.0.2.1: update exact example.test."],
        &[
            (
                OWN,
                false,
                &[("example.test", 2), ("example.test", 6)],
                true,
            ),
            (OWN, false, WWW_A, false),
        ],
    ),
    (
        &["192.0.2.1: update TYPE257 a"],
        &[
            (OWN, false, &[("example.test", 257)], true),
            (OWN, false, &[("example.test", 258)], false),
            (OWN, false, WWW_A, true),
        ],
    ),
    (
        &["192.0.2.1: update A tcp", "192.0.2.1: update TXT"],
        &[
            (OWN, false, WWW_A, false),
            (OWN, true, WWW_A, true),
            (OWN, false, WWW_TXT, true),
            (
                OWN,
                false,
                &[("www.example.test", 16), ("www.example.test", 1)],
                false,
            ),
        ],
    ),
    (
        &["192.0.2.1: transfer", "192.0.2.2: update"],
        &[(OWN, true, WWW_A, false), (OTHER, false, WWW_A, true)],
    ),
];

/// The rule of a text, read once more where memory was refused.
fn rule(alloc: Global, text: &str) -> Result<Rule, RuleFault<'_>> {
    match parse_rule(alloc, text) {
        Err(RuleFault::NoMemory) => parse_rule(alloc, text),
        told => told,
    }
}

/// Whether rules permit a request; None where a rule or the address can't be read.
fn permits(alloc: Global, texts: &[&'static str], request: &Request) -> Option<bool> {
    let mut rules = Vec::new(alloc);
    for text in texts {
        rules.push(rule(alloc, *text).ok()?).ok()?;
    }
    let mut records = Vec::new(alloc);
    for (owner, rtype) in request.2 {
        let record = RawRecord {
            owner: name(owner.as_bytes()),
            rtype: RType(*rtype),
            class: Class::IN,
            ttl: 0,
            octets: Vec::new(alloc),
        };
        records.push(record).ok()?;
    }
    let who = Requestor::new(request.0.parse::<IpAddr>().ok()?, request.1);
    let apex = name(b"example.test");
    Some(are_permitted(rules.as_slice(), who, &apex, records.as_slice()))
}

/// The first request that rules judge otherwise, with the rules.
fn first_wrong(alloc: Global) -> Option<(&'static [&'static str], Request)> {
    for (texts, requests) in &SETS {
        for request in *requests {
            let got = match permits(alloc, texts, request) {
                None => permits(alloc, texts, request),
                got => got,
            };
            if got != Some(request.3) {
                return Some((*texts, *request));
            }
        }
    }
    None
}

/// Texts, and the rule that each is, or why it is none.
const TEXTS: [(&str, &str); 24] = [
    (
        "127.0.0.1: transfer ,  update",
        "127.0.0.1: update, transfer",
    ),
    ("::ffff:10.0.0.0/104: transfer", "10.0.0.0/8: transfer"),
    ("10.1.2.3/32: update type16 tcp", "10.1.2.3: update TXT tcp"),
    ("0.0.0.0/0: transfer", "0.0.0.0/0: transfer"),
    (
        "2001:DB8::/32: update exact A.test TYPE65280",
        "2001:db8::/32: update exact A.test. TYPE65280",
    ),
    ("::: update at-or-below .", "::: update at-or-below ."),
    (
        "127.0.0.1:update",
        "no colon and blank between who and the rights",
    ),
    (
        "host: update",
        "'host' is not an address or a prefix, such as 192.0.2.7 or 2001:db8::/32",
    ),
    (
        "10.0.0.0/33: update",
        "the length of '10.0.0.0/33' is not a number up to 32, or 128 of IPv6",
    ),
    (
        "10.0.0.0/+8: update",
        "the length of '10.0.0.0/+8' is not a number up to 32, or 128 of IPv6",
    ),
    (
        "10.0.0.0/: update",
        "the length of '10.0.0.0/' is not a number up to 32, or 128 of IPv6",
    ),
    (
        "10.0.0.1/8: update",
        "'10.0.0.1/8' has bits set after its length",
    ),
    ("2001:db8::/31: update", "2001:db8::/31: update"),
    (
        "2001:db8::1/127: update",
        "'2001:db8::1/127' has bits set after its length",
    ),
    ("127.0.0.1: ", "a right is missing: transfer or update"),
    (
        "127.0.0.1: update,",
        "a right is missing: transfer or update",
    ),
    (
        "127.0.0.1: query",
        "'query' is not a right: transfer or update",
    ),
    (
        "127.0.0.1: update, update",
        "'update' is given twice; give a second rule",
    ),
    ("127.0.0.1: transfer tcp", "nothing may follow before 'tcp'"),
    ("127.0.0.1: update tcp A", "nothing may follow before 'A'"),
    ("127.0.0.1: update exact", "a name is missing after 'exact'"),
    (
        "127.0.0.1: update exact a..b",
        "'a..b' is not a name: N3 EmptyLabel",
    ),
    (
        "127.0.0.1: update TYPE255",
        "'TYPE255' is not a type, such as AAAA or TYPE257",
    ),
    (
        "127.0.0.1: update TYPE01",
        "'TYPE01' is not a type, such as AAAA or TYPE257",
    ),
];

/// What a text is read as.
fn report_of(alloc: Global, text: &str) -> Result<String, AllocError> {
    match rule(alloc, text) {
        Ok(rule) => format!(in alloc; "{rule}"),
        Err(fault) => format!(in alloc; "{fault}"),
    }
}

/// Whether two texts are the same.
fn is_same(a: &str, b: &str) -> bool {
    a == b
}

/// The first text that is read as something else.
fn first_misread(alloc: Global) -> Result<Option<&'static str>, AllocError> {
    for (text, right) in &TEXTS {
        let got = match report_of(alloc, *text) {
            Err(_) => report_of(alloc, *text)?,
            Ok(got) => got,
        };
        if !is_same(got.as_str(), right) {
            return Ok(Some(*text));
        }
    }
    Ok(None)
}

#[test]
fn rules_permit(rt: HostRuntime) {
    assert_eq!(rt; first_wrong(rt.alloc()), None);
}

#[test]
fn rules_are_read(rt: HostRuntime) {
    assert_eq!(rt; first_misread(rt.alloc()), Ok(None));
}
