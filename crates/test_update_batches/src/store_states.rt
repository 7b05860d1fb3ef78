//! What threads see of a store.
use std::sync::Wait;
use std::test::Fail;
use update_batches::StoreState;

/// What another thread sees of a store: its journal's octets, the number of its zone text, and why it fails.
#[derive(PartialEq, Eq, Drop)]
struct Shown {
    journal: u64,
    text: u64,
    fault: Option<String>,
}

/// What is seen of a state.
fn seen<R: Wait + AllocGlobal>(rt: &R, state: &StoreState) -> Result<Shown, Fail> {
    Ok(Shown {
        journal: state.journal(),
        text: state.text(),
        fault: state.fault(rt, rt.alloc())?,
    })
}

/// A state with this fault, as it should be seen.
fn expected<R: AllocGlobal>(
    rt: &R,
    journal: u64,
    text: u64,
    fault: Option<&str>,
) -> Result<Shown, Fail> {
    let fault = match fault {
        Some(reason) => Some(format!(in rt.alloc(); "{reason}")?),
        None => None,
    };
    Ok(Shown {
        journal,
        text,
        fault,
    })
}

#[test]
fn state_is_what_was_shown_last(rt: HostRuntime) -> Result<(), Fail> {
    let alloc = rt.alloc();
    let state = StoreState::new();
    assert!(rt; seen(&rt, &state)? == expected(&rt, 0, 0, None)?);
    state.show_journal(156, 3);
    state.show_fault(&rt, Some(format!(in alloc; "the journal is full")?));
    let full = expected(&rt, 156, 3, Some("the journal is full"))?;
    assert!(rt; seen(&rt, &state)? == full);
    state.show_fault(&rt, None);
    state.show_journal(4096, 4);
    assert!(rt; seen(&rt, &state)? == expected(&rt, 4096, 4, None)?);
    Ok(())
}
