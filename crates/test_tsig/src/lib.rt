//! Tests of `hmac`, `tsig`, `signed_replies` and `key_file`: the MACs of RFC 4231; signed messages that other programs made: what each is taken as, what it is without its TSIG, and
//! how its reply is signed, and whether it is taken up before its turn; and key files.
#![tactic(auto)]

#[cfg(test)]
mod answered;
#[cfg(test)]
mod key_files;
#[cfg(test)]
mod macs;
#[cfg(test)]
mod made;
#[cfg(test)]
mod messages;
#[cfg(test)]
mod prepared;
#[cfg(test)]
mod signed_within;
#[cfg(test)]
mod verified;
