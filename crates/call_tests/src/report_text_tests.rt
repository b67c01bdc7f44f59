//! What no stored script shows of printed lines: a table that is full, and statuses that name no root.

use ar_statement::{Party, Role};
use report_text::{Code, CodeValue, Happening, Values, What, print};
use std::alloc::{AllocError, Global};
use std::test::Fail;

/// Whether this is the line that is printed.
fn is_printed(alloc: Global, happening: &Happening, line: &str) -> Result<bool, AllocError> {
    let mut out = Vec::new(alloc);
    print(alloc, happening, &mut out)?;
    Ok(out.ends_with(b"\n") && &out[..out.len().saturating_sub(1)] == line.as_bytes())
}

/// A code of a rule.
fn code(role: Role, number: u8, values: Values) -> Option<Code> {
    Some(Code {
        role,
        number,
        values,
    })
}

/// Whether this is the line of a step that is refused.
fn is_refused_so(
    alloc: Global,
    party: Party,
    what: What,
    refused: Option<Code>,
    line: &str,
) -> Result<bool, AllocError> {
    let step = Happening::Step {
        party,
        what,
        refused,
    };
    is_printed(alloc, &step, line)
}

#[test]
fn steps_of_logs_that_are_refused(rt: HostRuntime) -> Result<(), Fail> {
    let full = Values::Two(CodeValue::Number(2), CodeValue::Full);
    let no_root = Values::Two(CodeValue::NoRoot, CodeValue::Number(0));
    let rows = [
        (
            0,
            What::Propose,
            8,
            Values::Nothing,
            "L0 propose refused L8",
        ),
        (1, What::Take(1), 10, full, "L1 take 1 refused L10 2 full"),
        (
            1,
            What::Take(2),
            15,
            no_root,
            "L1 take 2 refused L15 none 0",
        ),
    ];
    for (log, what, number, values, line) in rows {
        let refused = code(Role::LogServer, number, values);
        let party = Role::LogServer.party(log);
        assert!(rt; is_refused_so(rt.alloc(), party, what, refused, line)?);
    }
    Ok(())
}
