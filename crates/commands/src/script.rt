//! Scripts: steps as lines of text.
//!
//! A line is a call (`load NAME`, `drop NAME`, `copy NAME NAME`, `weak NAME NAME`, `fade NAME`, `up NAME NAME`, `ask NAME HEX`, `ixfr NAME HEX` or
//! `update HEX`), or `begin NAME` and a call, or `next NAME`. Words are separated by one space. A name has 1 to 8 lower-case letters and digits; HEX
//! is a request of 1 to 65,535 octets in hexadecimal. The last line may lack its LF.
ghost use Rattle.std.specs.Prelude.{◌≡◌, ◌==◌, ◌&&◌, bytes_eq, ◌++◌, ◌∷◌, [], Ok, Err, OnOk, IfOk, IfErr, IfSome, map};
ghost use Rattle.std.specs.List.{list_all};
ghost use Rattle.std.specs.Option.{option_map};
ghost use Rattle.commands.specs.declared.script.ScriptFault.TheVariants.{Device};
ghost use Rattle.commands.specs.Script.{AtBad};
ghost use Rattle.commands.specs.Script.{words_of as words_on, is_name as says_name, is_name_octet as says_name_octet, request_in, asking, transferring, updating, call_of_two as says_call_of_two, call_of_three as says_call_of_three, call_of_names as says_call_of_names, call_in as says_call, step_in as says_step, step_of as step_on, script_of, called_by, said_by};
ghost use Rattle.hex.specs.Hex.{decode_of};
ghost use Rattle.world_run.specs.declared.step.WorldStep.TheVariants.{Whole, Begin};

use crate::input::{MAX_READS, endless};
use crate::lines::{MAX_REQUEST, without_lf};
use hex::FromHexError;
use std::alloc::{AllocError, Global};
use std::io::{self, BufRead};
use world_run::{Call, Handle, Request, WorldStep};

/// The maximum length of a name, in octets.
const MAX_NAME: usize = 8;

/// A call in a script.
#[derive(Drop)]
pub enum ScriptCall {
    /// Creates a strong owner of the last version, under this name.
    Load(Vec<u8>),
    /// Releases the strong owner of this name.
    Drop(Vec<u8>),
    /// Creates another strong owner of the version of the first name, under the second.
    Copy(Vec<u8>, Vec<u8>),
    /// Creates a weak owner of the version of the first name, under the second.
    Weak(Vec<u8>, Vec<u8>),
    /// Releases the weak owner of this name.
    Fade(Vec<u8>),
    /// Creates a strong owner of the version of the weak owner of the first name, under the second, unless the version is buried.
    Up(Vec<u8>, Vec<u8>),
    /// A request over UDP, answered in the version of the strong owner of this name.
    Ask(Vec<u8>, Vec<u8>),
    /// A request over TCP for a transfer, answered as if the version of the strong owner of this name were the one served (RFC 1995, 2;
    /// RFC 5936, 2.2).
    Transfer(Vec<u8>, Vec<u8>),
    /// A dynamic update from a permitted client (RFC 2136).
    Update(Vec<u8>),
}

/// A step in a script.
#[derive(Drop)]
pub enum ScriptStep {
    /// A call with all its steps.
    Whole(ScriptCall),
    /// Begins a call under this name, to be played step by step.
    Begin(Vec<u8>, ScriptCall),
    /// Takes one step of the call under way with this name.
    Next(Vec<u8>),
}

/// Why a script cannot be read.
#[derive(Drop)]
pub enum ScriptFault {
    /// The number of the first line that is not a step, counted from 1.
    Bad(u64),
    /// An I/O error, or lack of memory.
    Device(io::Error),
}

impl From<io::Error> for ScriptFault {
    ghost from_gives = { λ fault given. given ≡ Device fault };

    fn from(fault: io::Error) -> Self {
        ScriptFault::Device(fault)
    }
}

impl ScriptCall {
    /// The call in the form that `world_run` takes.
    fn as_world(&self) -> Call<'_>
        ensures { result ≡ called_by self.now }
    {
        match self {
            ScriptCall::Load(name) => Call::Load(Handle::new(name.as_slice())),
            ScriptCall::Drop(name) => Call::Drop(Handle::new(name.as_slice())),
            ScriptCall::Copy(given, name) => {
                Call::Copy(Handle::new(given.as_slice()), Handle::new(name.as_slice()))
            }
            ScriptCall::Weak(given, name) => {
                Call::Weak(Handle::new(given.as_slice()), Handle::new(name.as_slice()))
            }
            ScriptCall::Fade(name) => Call::Fade(Handle::new(name.as_slice())),
            ScriptCall::Up(weak, name) => {
                Call::Up(Handle::new(weak.as_slice()), Handle::new(name.as_slice()))
            }
            ScriptCall::Ask(name, request) => Call::Ask(
                Handle::new(name.as_slice()),
                Request::new(request.as_slice()),
            ),
            ScriptCall::Transfer(name, request) => Call::Transfer(
                Handle::new(name.as_slice()),
                Request::new(request.as_slice()),
            ),
            ScriptCall::Update(request) => Call::Update(Request::new(request.as_slice())),
        }
    }
}

impl ScriptStep {
    /// The step in the form that `world_run` takes.
    pub fn as_world(&self) -> WorldStep<'_>
        ensures { result ≡ said_by self.now }
    {
        match self {
            ScriptStep::Whole(call) => WorldStep::Whole(call.as_world()),
            ScriptStep::Begin(name, call) => {
                WorldStep::Begin(Handle::new(name.as_slice()), call.as_world())
            }
            ScriptStep::Next(name) => WorldStep::Next(Handle::new(name.as_slice())),
        }
    }
}

/// Reads a script's steps, to its end or to the first line that is not a step.
///
/// A `Device` fault also covers lack of memory, and an input that has not ended after 2^32 reads.
pub fn read_script<R: BufRead>(
    alloc: Global,
    reader: &mut R,
) -> Result<Vec<ScriptStep>, ScriptFault>
    // Clauses about octets hold if the reader reports its remaining octets.
    ensures ok { IfOk result (λ steps. IfSome (R.remaining reader.old) (λ input.
        script_of input ≡ Ok (map said_by steps.items))) }
    ensures bad { IfErr result (λ fault. AtBad fault (λ line. IfSome (R.remaining reader.old) (λ input.
        script_of input ≡ Err line))) }
{
    let mut steps = Vec::new(alloc);
    let mut line = Vec::new(alloc);
    for read in 0..MAX_READS {
        line.clear();
        if reader.read_until(b'\n', &mut line)? == 0 {
            return Ok(steps);
        }
        match step_of(alloc, without_lf(line.as_slice()))? {
            Some(step) => push(&mut steps, step)?,
            None => return Err(ScriptFault::Bad(read + 1)),
        }
    }
    Err(ScriptFault::Device(endless()))
}

/// Adds a step. Lack of memory is returned as an I/O error.
fn push(steps: &mut Vec<ScriptStep>, step: ScriptStep) -> io::Result<()>
    ensures { OnOk result (steps.new.items ≡ steps.old.items ++ step ∷ []) }
{
    steps.push(step)?;
    Ok(())
}

/// The step on a line; None if the line is not a step.
fn step_of(alloc: Global, line: &[u8]) -> io::Result<Option<ScriptStep>>
    ensures { IfOk result (λ step. option_map said_by step ≡ step_on line.now) }
{
    let words = words_of(alloc, line)?;
    step_in(alloc, words.as_slice())
}

/// The words of a line, separated by single spaces. Two adjacent spaces enclose an empty word.
fn words_of<'a>(alloc: Global, line: &'a [u8]) -> io::Result<Vec<&'a [u8]>>
    ensures { IfOk result (λ words. map (λ word. word.now) words.items ≡ words_on line.now) }
{
    Ok(line.split(|octet| *octet == b' ').collect(alloc)?)
}

/// The step that these words form; None if they form none.
#[tactic(auto, unfolding(crate::specs::Script::step_in))]
fn step_in(alloc: Global, words: &[&[u8]]) -> io::Result<Option<ScriptStep>>
    ensures { IfOk result (λ step. option_map said_by step ≡ says_step (map (λ word. word.now) words.now)) }
{
    match words {
        [word, name] => {
            if is_word_for(word, b"next", name) {
                Ok(Some(ScriptStep::Next(Vec::from_slice(alloc, name)?)))
            } else {
                whole_of(alloc, words)
            }
        }
        [word, name, _, ..] => {
            if is_word_for(word, b"begin", name) {
                begin_of(alloc, name, &words[2..])
            } else {
                whole_of(alloc, words)
            }
        }
        _ => Ok(None),
    }
}

/// Whether a word is this one and the next word is a name.
fn is_word_for(word: &[u8], this: &[u8], name: &[u8]) -> bool
    ensures { result ≡ (bytes_eq word.now this.now && says_name name.now) }
{
    word == this && is_name(name)
}

/// A call with all its steps, from the words of the call; None if they form no call.
fn whole_of(alloc: Global, words: &[&[u8]]) -> io::Result<Option<ScriptStep>>
    ensures { IfOk result (λ step. option_map said_by step ≡ option_map Whole (says_call (map (λ word. word.now) words.now))) }
{
    match call_in(alloc, words)? {
        Some(call) => Ok(Some(ScriptStep::Whole(call))),
        None => Ok(None),
    }
}

/// The start of a call under a name, from the words of the call; None if they form no call.
fn begin_of(alloc: Global, name: &[u8], words: &[&[u8]]) -> io::Result<Option<ScriptStep>>
    ensures { IfOk result (λ step. option_map said_by step ≡ option_map (Begin name.now) (says_call (map (λ word. word.now) words.now))) }
{
    match call_in(alloc, words)? {
        Some(call) => Ok(Some(ScriptStep::Begin(Vec::from_slice(alloc, name)?, call))),
        None => Ok(None),
    }
}

/// The call that these words form; None if they form none.
#[tactic(auto, unfolding(crate::specs::Script::call_in))]
fn call_in(alloc: Global, words: &[&[u8]]) -> io::Result<Option<ScriptCall>>
    ensures { IfOk result (λ call. option_map called_by call ≡ says_call (map (λ word. word.now) words.now)) }
{
    match words {
        [word, rest] => call_of_two(alloc, word, rest),
        [word, name, digits] => call_of_three(alloc, word, name, digits),
        _ => Ok(None),
    }
}

/// The call that two words form; None if they form none.
fn call_of_two(alloc: Global, word: &[u8], rest: &[u8]) -> io::Result<Option<ScriptCall>>
    ensures { IfOk result (λ call. option_map called_by call ≡ says_call_of_two word.now rest.now) }
{
    if is_word_for(word, b"load", rest) {
        return Ok(Some(ScriptCall::Load(Vec::from_slice(alloc, rest)?)));
    }
    if is_word_for(word, b"drop", rest) {
        return Ok(Some(ScriptCall::Drop(Vec::from_slice(alloc, rest)?)));
    }
    if is_word_for(word, b"fade", rest) {
        return Ok(Some(ScriptCall::Fade(Vec::from_slice(alloc, rest)?)));
    }
    if word == b"update".as_slice() {
        return update_of(alloc, rest);
    }
    Ok(None)
}

/// The call that three words form; None if they form none.
fn call_of_three(
    alloc: Global,
    word: &[u8],
    name: &[u8],
    digits: &[u8],
) -> io::Result<Option<ScriptCall>>
    ensures { IfOk result (λ call. option_map called_by call ≡ says_call_of_three word.now name.now digits.now) }
{
    if is_word_for(word, b"ask", name) {
        return ask_of(alloc, name, digits);
    }
    if is_word_for(word, b"ixfr", name) {
        return transfer_of(alloc, name, digits);
    }
    if is_name(name) && is_name(digits) {
        return call_of_names(alloc, word, name, digits);
    }
    Ok(None)
}

/// The call on two names that a word stands for; None if it stands for none.
fn call_of_names(
    alloc: Global,
    word: &[u8],
    one: &[u8],
    other: &[u8],
) -> io::Result<Option<ScriptCall>>
    ensures { IfOk result (λ call. option_map called_by call ≡ says_call_of_names word.now one.now other.now) }
{
    if word == b"copy".as_slice() {
        return Ok(Some(ScriptCall::Copy(
            Vec::from_slice(alloc, one)?,
            Vec::from_slice(alloc, other)?,
        )));
    }
    if word == b"weak".as_slice() {
        return Ok(Some(ScriptCall::Weak(
            Vec::from_slice(alloc, one)?,
            Vec::from_slice(alloc, other)?,
        )));
    }
    if word == b"up".as_slice() {
        return Ok(Some(ScriptCall::Up(
            Vec::from_slice(alloc, one)?,
            Vec::from_slice(alloc, other)?,
        )));
    }
    Ok(None)
}

/// A request in hexadecimal, sent to a strong owner; None if it is not hexadecimal of 1 to 65,535 octets.
fn ask_of(alloc: Global, name: &[u8], digits: &[u8]) -> io::Result<Option<ScriptCall>>
    ensures { IfOk result (λ call. option_map called_by call ≡ asking name.now (request_in (decode_of digits.now))) }
{
    match request_of(alloc, digits)? {
        Some(request) => Ok(Some(ScriptCall::Ask(Vec::from_slice(alloc, name)?, request))),
        None => Ok(None),
    }
}

/// A transfer request in hexadecimal, for a strong owner's version; None if it is not hexadecimal of 1 to 65,535 octets.
fn transfer_of(alloc: Global, name: &[u8], digits: &[u8]) -> io::Result<Option<ScriptCall>>
    ensures { IfOk result (λ call. option_map called_by call ≡ transferring name.now (request_in (decode_of digits.now))) }
{
    match request_of(alloc, digits)? {
        Some(request) => Ok(Some(ScriptCall::Transfer(Vec::from_slice(alloc, name)?, request))),
        None => Ok(None),
    }
}

/// An update in hexadecimal; None if it is not hexadecimal of 1 to 65,535 octets.
fn update_of(alloc: Global, digits: &[u8]) -> io::Result<Option<ScriptCall>>
    ensures { IfOk result (λ call. option_map called_by call ≡ updating (request_in (decode_of digits.now))) }
{
    match request_of(alloc, digits)? {
        Some(request) => Ok(Some(ScriptCall::Update(request))),
        None => Ok(None),
    }
}

/// The octets of a request in hexadecimal; None if it is not hexadecimal of 1 to 65,535 octets.
fn request_of(alloc: Global, digits: &[u8]) -> io::Result<Option<Vec<u8>>>
    ensures { IfOk result (λ request. option_map (λ octets. octets.items) request ≡ request_in (decode_of digits.now)) }
{
    match hex::decode(alloc, digits) {
        Ok(octets) if !octets.is_empty() && octets.len() <= MAX_REQUEST => Ok(Some(octets)),
        Err(FromHexError::OutOfMemory) => Err(io::Error::from(AllocError)),
        _ => Ok(None),
    }
}

/// Whether a word is the name of an owner or of a call under way: 1 to 8 lower-case letters and digits.
#[tactic(auto, unfolding(crate::specs::Script::is_name))]
fn is_name(word: &[u8]) -> bool
    ensures { result ≡ says_name word.now }
{
    !word.is_empty() && word.len() <= MAX_NAME && are_name_octets(word)
}

/// Whether octets are lower-case letters and digits.
fn are_name_octets(word: &[u8]) -> bool
    ensures { result ≡ list_all says_name_octet word.now }
{
    word.iter().all(|octet| is_name_octet(*octet))
}

/// Whether an octet is a lower-case letter or a digit.
fn is_name_octet(octet: u8) -> bool
    ensures { result ≡ says_name_octet octet }
{
    octet.is_ascii_lowercase() || octet.is_ascii_digit()
}
