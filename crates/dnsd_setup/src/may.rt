//! Printing what a request gets by rules, and which rules aren't of a zone.
use command_line::{BAD_COMMAND, Trial};
use commands::{DONE, FAILED, REFUSED};
use dns_name::Name;
use rights::{RequestFault, Rule, first_outside, judge_digits};
use std::io;

/// Prints what a request gets by rules, and by which, on standard output, and returns the program's status: 1 where it is not permitted. Errors go to
/// standard error.
pub fn run_may<R: Print + Eprint + AllocGlobal>(rt: &R, trial: &Trial<'_>) -> io::Result<u8> {
    let rules = trial.rules.as_slice();
    match judge_digits(rt.alloc(), rules, trial.who, trial.request) {
        Ok(decision) => {
            let text = decision.text.as_str();
            print!(rt; "{text}")?;
            Ok(if decision.permitted { DONE } else { REFUSED })
        }
        Err(fault) => tell_request(rt, fault, rules),
    }
}

/// Writes on standard error why a request isn't judged, and returns the program's status.
fn tell_request<R: Eprint>(rt: &R, fault: RequestFault, rules: &[Rule]) -> io::Result<u8> {
    match fault {
        RequestFault::NotHex => {
            eprintln!(rt; "error: the request is not written in hexadecimal")?;
        }
        RequestFault::NotRequest => {
            eprintln!(rt; "error: the request is neither an update nor a query")?;
        }
        RequestFault::Outside(place) => {
            if let Some(rule) = rules.get(place) {
                eprintln!(rt; "error: --may '{rule}': the name is outside of the update's zone")?;
            }
        }
        RequestFault::NoMemory => {
            eprintln!(rt; "error: out of memory")?;
            return Ok(FAILED);
        }
    }
    Ok(BAD_COMMAND)
}

/// Whether a rule names a name outside of the zone with this apex; standard error then has the first such rule.
pub fn tell_outside<R: Eprint>(rt: &R, rules: &[Rule], apex: &Name) -> io::Result<bool> {
    let Some(place) = first_outside(rules, apex) else {
        return Ok(false);
    };
    if let Some(rule) = rules.get(place) {
        eprintln!(rt; "error: --may '{rule}': the name is outside of the zone {apex}")?;
    }
    Ok(true)
}
