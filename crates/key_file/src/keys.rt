//! The keys of a key file.
ghost use Rattle.std.specs.Prelude.{◌≡◌, ◌<◌, ◌≤◌, ◌⊎◌, [], ◌∷◌, ◌++◌, length, IfOk, IfErr, OnOk};
ghost use Rattle.dns_name.specs.Name.{wire_of, fold_name};
ghost use Rattle.key_file.specs.Keys.{AreKeys, IsKeyOf, algorithm_named, is_weak, is_word, key_name, secret_in, without_dot};

use crate::fault::{KeyFault, KeyFileFault};
use crate::statements::{KeyText, Statements};
use crate::tokens::tokens_of;
use base64::engine::general_purpose::STANDARD;
use dns_name::Name;
use hmac::Algorithm;
use std::alloc::Global;
use tsig::{Key, Keys, MAX_KEY_NAME, MAX_KEYS};

/// The most octets of a secret (own).
pub const MAX_SECRET: usize = 1_024;

/// The fewest octets of a secret of which no warning is given: half of SHA-256's (own).
const LONG_ENOUGH: usize = 16;

/// What a key file has.
#[derive(Drop)]
pub struct KeyFile {
    /// Its keys, in order, their names in lower case. No two have one name.
    pub keys: Keys,
    /// The names of those whose secret has fewer than 16 octets.
    pub short: Vec<Name>,
}

/// The keys of a key file's text: `key NAME { algorithm ALGORITHM; secret SECRET; };`, in either order, and `ALGORITHM:NAME:SECRET`, with blanks and comments as
/// in BIND's files. Names and secrets may be quoted. An error is the first statement that is refused, or lack of memory.
pub fn parse_keys(alloc: Global, text: &[u8]) -> Result<KeyFile, KeyFileFault>
    ensures { IfOk result (λ file. AreKeys file.keys) }
{
    let tokens = tokens_of(alloc, text)?;
    let mut statements = Statements::new(tokens.as_slice());
    let mut file = KeyFile {
        keys: Keys::new(alloc),
        short: Vec::new(alloc),
    };
    // A statement has one word at least.
    for _ in 0..tokens.len() {
        let Some(key) = statements.next_key()? else {
            break;
        };
        if let Err(fault) = file.add(alloc, &key) {
            return Err(KeyFileFault {
                line: key.line,
                fault,
            });
        }
    }
    Ok(file)
}

impl KeyFile {
    /// Adds the key of a statement.
    #[tactic(auto, using(crate::proofs::KeyLemmas::added))]
    fn add(&mut self, alloc: Global, text: &KeyText<'_>) -> Result<(), KeyFault>
        requires { AreKeys self.old.keys }
        ensures keys { AreKeys self.new.keys }
        ensures key { OnOk result (IsKeyOf text.now.name.now text.now.algorithm.now text.now.secret.now self.old.keys self.new.keys) }
    {
        let name = name_of(text.name)?;
        let algorithm = algorithm_of(text.algorithm)?;
        let secret = secret_of(alloc, text.secret)?;
        if self.keys.index_named(&name).is_some() {
            return Err(KeyFault::Twice);
        }
        if self.keys.len() >= MAX_KEYS {
            return Err(KeyFault::TooMany);
        }
        note_short(&mut self.short, &name, &secret)?;
        match self.keys.push(Key::new(name, algorithm, &secret)) {
            Ok(()) => Ok(()),
            Err(_) => Err(KeyFault::NoMemory),
        }
    }
}

/// Notes the name of a key whose secret is short.
fn note_short(short: &mut Vec<Name>, name: &Name, secret: &[u8]) -> Result<(), KeyFault>
    ensures long { LONG_ENOUGH ≤ length secret.now → short.new.items ≡ short.old.items }
    ensures short { OnOk result (length secret.now < LONG_ENOUGH → short.new.items ≡ short.old.items ++ name.now ∷ []) }
    ensures err { IfErr result (λ fault. fault ≡ KeyFault.NoMemory) }
{
    if secret.len() < LONG_ENOUGH && short.push(name.copy()).is_err() {
        return Err(KeyFault::NoMemory);
    }
    Ok(())
}

/// The key's name that a word is, in lower case. A word without a final dot is below the root.
#[tactic(auto, using(crate::proofs::KeyLemmas::fold_twice))]
fn name_of(word: &[u8]) -> Result<Name, KeyFault>
    ensures name { result ≡ key_name word.now }
    ensures short { IfOk result (λ name. length (wire_of name) ≤ 128) }
    ensures folded { IfOk result (λ name. fold_name name ≡ name) }
{
    let Ok(name) = Name::from_text(word, &Name::root()) else {
        return Err(KeyFault::BadName);
    };
    let name = name.fold();
    if name.wire().len() > MAX_KEY_NAME {
        return Err(KeyFault::LongName);
    }
    Ok(name)
}

/// A word without the dot at its end, where it has one.
fn without_dot(word: &[u8]) -> &[u8]
    ensures { result.now ≡ without_dot word.now }
{
    match word.strip_suffix(b".") {
        Some(front) => front,
        None => word,
    }
}

/// Whether a text is this word, in any case.
fn is_word(text: &[u8], word: &[u8]) -> bool
    ensures { result ≡ is_word text.now word.now }
{
    text.eq_ignore_ascii_case(word)
}

/// Whether a word names an algorithm that RFC 8945, 6 advises against, in any case.
fn is_weak(word: &[u8]) -> bool
    ensures { result ≡ is_weak word.now }
{
    is_word(word, b"hmac-md5.sig-alg.reg.int")
        || is_word(word, b"hmac-md5")
        || is_word(word, b"hmac-sha1")
}

/// The algorithm that a word names, in any case, with or without a final dot (RFC 8945, 6).
fn algorithm_of(word: &[u8]) -> Result<Algorithm, KeyFault>
    ensures { result ≡ algorithm_named (without_dot word.now) }
{
    let word = without_dot(word);
    if is_word(word, b"hmac-sha256") {
        return Ok(Algorithm::Sha256);
    }
    if is_word(word, b"hmac-sha384") {
        return Ok(Algorithm::Sha384);
    }
    if is_word(word, b"hmac-sha512") {
        return Ok(Algorithm::Sha512);
    }
    if is_weak(word) {
        return Err(KeyFault::WeakAlgorithm);
    }
    Err(KeyFault::UnknownAlgorithm)
}

/// The secret that a word is (RFC 4648, 4).
fn secret_of(alloc: Global, word: &[u8]) -> Result<Vec<u8>, KeyFault>
    ensures ok { IfOk result (λ secret. secret_in word.now ≡ Ok secret.items) }
    ensures err { IfErr result (λ fault. (fault ≡ KeyFault.NoMemory) ⊎ (secret_in word.now ≡ Err fault)) }
{
    match STANDARD.decode(alloc, word) {
        Ok(secret) => {
            if secret.is_empty() || secret.len() > MAX_SECRET {
                return Err(KeyFault::Size);
            }
            Ok(secret)
        }
        Err(base64::DecodeAllocError::OutOfMemory) => Err(KeyFault::NoMemory),
        Err(base64::DecodeAllocError::DecodeError(_)) => Err(KeyFault::Base64),
    }
}
