//! What calls give that no output shows: words that no text has, names as they are spelt, and the words for faults that no input
//! has.
use commands::{DONE, FAILED, Fault, REFUSED};
use dns_name::Name;
use dns_rdata::RType;
use master_file::{Cause, FileFault};
use record_text::{address, address6, is_number, name, number, owner, read_data, rtype};
use std::alloc::{AllocError, Global};
use world_run::WorldFault;
use zone_lexing::Word;

/// What is wrong with a word of no octets, with a lone backslash in quotes, and with a type that has no text.
fn causes(alloc: Global) -> [Option<Cause>; 6] {
    let empty = Word::Plain(b"");
    let root = Name::root();
    [
        address6(empty).err(),
        address(empty).err(),
        read_data(alloc, RType::TXT, &[Word::Quoted(b"\\")], &root).err(),
        read_data(alloc, RType::OPT, &[], &root).err(),
        number(empty, 65535).err(),
        rtype(empty).err(),
    ]
}

#[test]
fn words_of_no_text(rt: HostRuntime) {
    let outcome = causes(rt.alloc());
    let bad = Some(Cause::BadData);
    let (count, unknown) = (Some(Cause::Number), Some(Cause::UnknownType));
    assert!(rt; outcome == [bad, bad, bad, bad, count, unknown]);
    assert!(rt; !is_number(Word::Plain(b"")));
}

/// Names relative to the origin of RFC 1035, 5.3.
const NAMES: &[(&[u8], &[u8])] = &[
    (b"VENERA", b"\x06VENERA\x03ISI\x03EDU\0"),
    (b"@", b"\x03ISI\x03EDU\0"),
    (b"\\@", b"\x01@\x03ISI\x03EDU\0"),
    (b"MIL.", b"\x03MIL\0"),
];

/// Whether a word is read as these octets, as a name in data and as an owner.
fn is_name(text: &[u8], want: &[u8]) -> Option<bool> {
    let origin = Name::from_text(b"ISI.EDU.", &Name::root()).ok()?;
    let name = name(Word::Plain(text), &origin).ok()?;
    let owner = owner(Word::Plain(text), &origin).ok()?;
    Some(name.wire() == want && owner.wire() == want)
}

#[test]
fn names_as_they_are_spelt(rt: HostRuntime) {
    for (at, (text, want)) in NAMES.iter().enumerate() {
        assert_eq!(rt; is_name(text, want), Some(true), "{at}");
    }
}

/// The words of faults that want of memory has, and those of a last line.
fn words(alloc: Global) -> Result<String, AllocError> {
    let cause = Cause::NoMemory;
    let zone = Fault::Zone(FileFault { line: 14, cause });
    let world = Fault::World(WorldFault::NoMemory);
    let line = Fault::Script(18_446_744_073_709_551_615);
    let statuses = [zone.status(), world.status(), line.status()] == [REFUSED; 3];
    format!(in alloc; "{zone}, {world}, {line}, {statuses}")
}

#[test]
fn words_of_faults(rt: HostRuntime) -> Result<(), AllocError> {
    let outcome = words(rt.alloc())?;
    assert_eq!(rt;
        outcome.as_str(),
        "line 14: M14 NoMemory, V1 NoMemory, line 18446744073709551615: bad, true"
    );
    assert!(rt; [DONE, REFUSED, FAILED] == [0, 1, 3]);
    Ok(())
}
