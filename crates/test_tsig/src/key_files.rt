//! Key files: what they are read as, and why they are refused.
use crate::messages::{AXFR, QUERY};
use dns_name::Name;
use key_file::{KeyFault, KeyFile, KeyFileFault, parse_keys};
use std::alloc::{AllocError, Global};
use std::test::Fail;
use tsig::{MAX_KEYS, Verification, verify};
use wire_names::Message;

/// Texts, and the names of the keys that each has, with a mark after those whose secret is short; or the line and why it is refused. Secrets by RFC 4648, 10 and by hand.
const TEXTS: [(&str, &str); 33] = [
    (
        "key \"k.example.\" {\n\talgorithm hmac-sha256;\n\tsecret \"AAECAwQFBgcICQoLDA0ODxAREhMUFRYXGBkaGxwdHh8=\";\n};\n",
        "k.example.",
    ),
    (
        "key K.example { secret AAECAwQFBgcICQoLDA0ODxAREhMUFRYXGBkaGxwdHh8=; algorithm \"HMAC-SHA384.\"; }",
        "k.example.",
    ),
    (
        "hmac-sha512:K.Example:AAECAwQFBgcICQoLDA0ODxAREhMUFRYXGBkaGxwdHh8=\n",
        "k.example.",
    ),
    (
        "\n# hmac-md5:x:y\n/* of two\nlines **/hmac-sha256:a:AAECAwQFBgcICQoLDA0ODxAREhMUFRYXGBkaGxwdHh8= // the end\nKEY b{algorithm hmac-sha256;secret AAECAwQFBgcICQoLDA0ODxAREhMUFRYXGBkaGxwdHh8=;};hmac-sha256:c:AAECAwQFBgcICQoLDA0ODxAREhMUFRYXGBkaGxwdHh8=",
        "a. b. c.",
    ),
    ("", ""),
    ("/**/ # no key", ""),
    (
        "hmac-sha256:a:AAECAwQFBgcICQoLDA0O\nhmac-sha256:b:AAECAwQFBgcICQoLDA0ODw==",
        "a. (short) b.",
    ),
    (
        "hmac-sha256:aaaaaaaaaaaaaaaaaaaaaaaaaaaaaaaaaaaaaaaaaaaaaaaaaaaaaaaaaaaaaaa.aaaaaaaaaaaaaaaaaaaaaaaaaaaaaaaaaaaaaaaaaaaaaaaaaaaaaaaaaaaaaa:AAECAwQFBgcICQoLDA0ODxAREhMUFRYXGBkaGxwdHh8=",
        "aaaaaaaaaaaaaaaaaaaaaaaaaaaaaaaaaaaaaaaaaaaaaaaaaaaaaaaaaaaaaaa.aaaaaaaaaaaaaaaaaaaaaaaaaaaaaaaaaaaaaaaaaaaaaaaaaaaaaaaaaaaaaa.",
    ),
    (
        "\n\nhmac-sha256:aaaaaaaaaaaaaaaaaaaaaaaaaaaaaaaaaaaaaaaaaaaaaaaaaaaaaaaaaaaaaaa.aaaaaaaaaaaaaaaaaaaaaaaaaaaaaaaaaaaaaaaaaaaaaaaaaaaaaaaaaaaaaaa:AAECAwQFBgcICQoLDA0ODxAREhMUFRYXGBkaGxwdHh8=",
        "line 3: the key's name is longer than 128 octets",
    ),
    (
        "hmac-sha256:a..b:AAECAwQFBgcICQoLDA0ODxAREhMUFRYXGBkaGxwdHh8=",
        "line 1: the key's name is not a domain name",
    ),
    (
        "hmac-sha256:a:AAECAwQFBgcICQoLDA0ODxAREhMUFRYXGBkaGxwdHh8=\nhmac-sha256:b:c",
        "line 2: the secret is not base64",
    ),
    ("hmac-sha256:a:Zh==", "line 1: the secret is not base64"),
    (
        "key a { algorithm hmac-sha256; secret \"Zg==\"; };\nkey b { algorithm hmac-sha256;\nsecret \"Zg=\";\n};",
        "line 2: the secret is not base64",
    ),
    (
        "hmac-sha256:a:",
        "line 1: the secret has no octet, or more than 1024",
    ),
    (
        "hmac-sha256:a.b:AAECAwQFBgcICQoLDA0ODxAREhMUFRYXGBkaGxwdHh8=\n\nhmac-sha512:A.B.:AAECAwQFBgcICQoLDA0ODxAREhMUFRYXGBkaGxwdHh8=",
        "line 3: a key before has this name",
    ),
    (
        "hmac-sha224:a:AAECAwQFBgcICQoLDA0ODxAREhMUFRYXGBkaGxwdHh8=",
        "line 1: the algorithm is not hmac-sha256, hmac-sha384 or hmac-sha512",
    ),
    (
        "AAECAwQFBgcICQoLDA0ODxAREhMUFRYXGBkaGxwdHh8=:a:hmac-sha256",
        "line 1: the algorithm is not hmac-sha256, hmac-sha384 or hmac-sha512",
    ),
    (
        "hmac-md5:a:AAECAwQFBgcICQoLDA0ODxAREhMUFRYXGBkaGxwdHh8=",
        "line 1: hmac-md5 and hmac-sha1 are too weak; use hmac-sha256, hmac-sha384 or hmac-sha512",
    ),
    (
        "HMAC-MD5.SIG-ALG.REG.INT.:a:AAECAwQFBgcICQoLDA0ODxAREhMUFRYXGBkaGxwdHh8=",
        "line 1: hmac-md5 and hmac-sha1 are too weak; use hmac-sha256, hmac-sha384 or hmac-sha512",
    ),
    (
        "key a { algorithm hmac-sha1; secret AAECAwQFBgcICQoLDA0ODxAREhMUFRYXGBkaGxwdHh8=; };",
        "line 1: hmac-md5 and hmac-sha1 are too weak; use hmac-sha256, hmac-sha384 or hmac-sha512",
    ),
    (
        "hmac-sha256:AAECAwQFBgcICQoLDA0ODxAREhMUFRYXGBkaGxwdHh8=",
        "line 1: neither a key statement nor ALGORITHM:NAME:SECRET",
    ),
    (
        "AAECAwQFBgcICQoLDA0ODxAREhMUFRYXGBkaGxwdHh8=\n",
        "line 1: neither a key statement nor ALGORITHM:NAME:SECRET",
    ),
    (
        "# a list\n{",
        "line 2: neither a key statement nor ALGORITHM:NAME:SECRET",
    ),
    ("key {", "line 1: a word is missing"),
    ("key a\nalgorithm hmac-sha256;", "line 2: '{' is missing"),
    (
        "key a {\nalgorithm hmac-sha256\nsecret AAECAwQFBgcICQoLDA0ODxAREhMUFRYXGBkaGxwdHh8=; };",
        "line 3: ';' is missing",
    ),
    (
        "key a { algorithm hmac-sha256; secret AAECAwQFBgcICQoLDA0ODxAREhMUFRYXGBkaGxwdHh8=;\nsecret AAECAwQFBgcICQoLDA0ODxAREhMUFRYXGBkaGxwdHh8=; };",
        "line 2: '}' is missing",
    ),
    (
        "key a { secret AAECAwQFBgcICQoLDA0ODxAREhMUFRYXGBkaGxwdHh8=; secret AAECAwQFBgcICQoLDA0ODxAREhMUFRYXGBkaGxwdHh8=; };",
        "line 1: a key has algorithm and secret, each once",
    ),
    (
        "key a { name b; secret AAECAwQFBgcICQoLDA0ODxAREhMUFRYXGBkaGxwdHh8=; };",
        "line 1: a key has algorithm and secret, each once",
    ),
    (
        "key a {\nsecret AAECAwQFBgcICQoLDA0ODxAREhMUFRYXGBkaGxwdHh8=;\n\n",
        "line 2: the file ends within a key",
    ),
    (
        "key\n\"a\" { secret \"AAECAwQFBgcICQoLDA0ODxAREhMUFRYXGBkaGxwdHh8=\n\"; };",
        "line 2: a comment or a quoted word is not closed",
    ),
    (
        "key \"a",
        "line 1: a comment or a quoted word is not closed",
    ),
    (
        "\n/*/ AAECAwQFBgcICQoLDA0ODxAREhMUFRYXGBkaGxwdHh8=\n\n",
        "line 2: a comment or a quoted word is not closed",
    ),
];

/// What a text is read as, read once more where memory was refused.
fn parsed(alloc: Global, text: &str) -> Result<KeyFile, KeyFileFault> {
    match parse_keys(alloc, text.as_bytes()) {
        Err(failed) if failed.fault == KeyFault::NoMemory => parse_keys(alloc, text.as_bytes()),
        parsed => parsed,
    }
}

/// Whether a key's name is among those whose secret is short.
fn is_short(file: &KeyFile, key: &Name) -> bool {
    file.short.iter().any(|name| name == key)
}

/// Adds the name of the key at an index of a file, with a mark if its secret is short.
fn add_name(names: &mut String, file: &KeyFile, index: u16) -> Result<(), AllocError> {
    let Some(key) = file.keys.get(index) else {
        return Ok(());
    };
    if index > 0 {
        names.push_str(" ")?;
    }
    names.push_str(key.name().to_text().as_str())?;
    if is_short(file, key.name()) {
        names.push_str(" (short)")?;
    }
    Ok(())
}

/// The names of a file's keys, with a mark after those whose secret is short.
fn names_of(alloc: Global, file: &KeyFile) -> Result<String, AllocError> {
    let mut names = String::new(alloc);
    for index in 0..MAX_KEYS {
        add_name(&mut names, file, index as u16)?;
    }
    Ok(names)
}

/// What parsing a text gives, as a text.
fn outcome(alloc: Global, text: &str) -> Result<String, AllocError> {
    match parsed(alloc, text) {
        Ok(file) => names_of(alloc, &file),
        Err(fault) => format!(in alloc; "{fault}"),
    }
}

/// Whether parsing a text gives this.
fn has_outcome(alloc: Global, text: &str, right: &str) -> Result<bool, AllocError> {
    let got = match outcome(alloc, text) {
        Err(_) => outcome(alloc, text)?,
        Ok(got) => got,
    };
    Ok(got.as_str() == right)
}

/// The first text of which parsing gives something else.
fn first_misread(alloc: Global) -> Result<Option<&'static str>, AllocError> {
    for (text, right) in &TEXTS {
        if !has_outcome(alloc, text, right)? {
            return Ok(Some(*text));
        }
    }
    Ok(None)
}

#[test]
fn key_files_are_read(rt: HostRuntime) {
    assert_eq!(rt; first_misread(rt.alloc()), Ok(None));
}

/// Files of the keys of worked messages, and such a message.
const SIGNED: [(&str, &str); 3] = [
    (
        "key \"Key.Example.Test\" {\n\talgorithm hmac-sha256;\n\tsecret \"AAECAwQFBgcICQoLDA0ODxAREhMUFRYXGBkaGxwdHh8=\";\n};\n",
        QUERY,
    ),
    (
        "hmac-sha256:key.example.test.:AAECAwQFBgcICQoLDA0ODxAREhMUFRYXGBkaGxwdHh8=",
        QUERY,
    ),
    (
        "hmac-sha512:big.example.test:AAECAwQFBgcICQoLDA0ODxAREhMUFRYXGBkaGxwdHh8gISIjJCUmJygpKissLS4vMDEyMzQ1Njc4OTo7PD0+Pw==",
        AXFR,
    ),
];

/// Whether a message is signed by a key of a file.
fn is_signed(alloc: Global, text: &str, message: &str) -> Result<bool, Fail> {
    let octets = hex::decode(alloc, message)?;
    let Ok(file) = parsed(alloc, text) else {
        return Ok(false);
    };
    Ok(matches!(
        verify(&file.keys, 1_700_000_001, &Message::new(&octets)),
        Verification::Signed(_)
    ))
}

/// The number of the first file whose keys don't sign its message.
fn first_unsigned(alloc: Global) -> Result<Option<usize>, Fail> {
    for (i, (text, message)) in SIGNED.iter().enumerate() {
        if !is_signed(alloc, text, message)? {
            return Ok(Some(i));
        }
    }
    Ok(None)
}

#[test]
fn keys_of_files_sign(rt: HostRuntime) -> Result<(), Fail> {
    assert_eq!(rt; first_unsigned(rt.alloc())?, None);
    Ok(())
}

/// A file of this many keys, each secret of this many times three octets, and an end.
struct Long(usize, usize, &'static str);

/// Long files, and the line and why each is refused; nothing of those that are taken. The most are 256 keys and 1,024 octets.
const LONG: [(Long, &str); 4] = [
    (Long(256, 6, ""), ""),
    (Long(257, 6, ""), "line 257: more than 256 keys"),
    (Long(1, 341, "AA=="), ""),
    (
        Long(1, 341, "AAA="),
        "line 1: the secret has no octet, or more than 1024",
    ),
];

/// The text of a long file.
fn long_text(alloc: Global, long: &Long) -> Result<String, AllocError> {
    let Long(keys, times, end) = long;
    let mut secret = String::new(alloc);
    for _ in 0..*times {
        secret.push_str("AAAA")?;
    }
    secret.push_str(end)?;
    let mut text = String::new(alloc);
    for i in 0..*keys {
        let line = format!(in alloc; "hmac-sha256:k{i}:{secret}\n")?;
        text.push_str(line.as_str())?;
    }
    Ok(text)
}

/// Whether a long file is taken, or refused for this.
fn is_judged(alloc: Global, long: &Long, right: &str) -> Result<bool, AllocError> {
    let text = long_text(alloc, long)?;
    match parsed(alloc, text.as_str()) {
        Ok(file) => Ok(right.is_empty() && file.keys.len() == long.0 && file.short.is_empty()),
        Err(fault) => {
            let got = format!(in alloc; "{fault}")?;
            Ok(got.as_str() == right)
        }
    }
}

/// The number of the first long file that is judged otherwise.
fn first_misjudged(alloc: Global) -> Result<Option<usize>, Fail> {
    for (i, (long, right)) in LONG.iter().enumerate() {
        if !is_judged(alloc, long, right)? {
            return Ok(Some(i));
        }
    }
    Ok(None)
}

#[test]
fn long_key_files(rt: HostRuntime) -> Result<(), Fail> {
    assert_eq!(rt; first_misjudged(rt.alloc())?, None);
    Ok(())
}
