//! A log to which lines come.

ghost use Rattle.std.specs.Prelude.{◌≡◌};
ghost use Rattle.ar_statement.specs.Claims.{log_party};
ghost use Rattle.party_desk.specs.Asking.{log_asked, order_for_log};
ghost use Rattle.party_desk.specs.Telling.{log_refused, log_told, log_what, sent_lines};

use crate::LineParty;
use crate::reading::{Heard, hear, need_own};
use crate::unread::{Cause, Unread};
use crate::writing::{put_ended, put_messages, put_step};
use ar_message::Sent;
use ar_nodes::codes::log_code;
use ar_statement::{Party, Role};
use log_core::LogRefusal;
use log_keeper::{LogKeeper, LogOrder};
use report_text::What;
use script_text::EventLine;
use std::alloc::{AllocError, Global};

/// Which party a log is.
fn who(log: &LogKeeper) -> Party
    ensures { result ≡ log_party log.now.core.log.me }
{
    Role::LogServer.party(log.number())
}

/// What an event asks of a log.
fn order_of(log: &LogKeeper, event: &EventLine) -> Result<LogOrder, Cause>
    ensures { result ≡ order_for_log log.now.core.log.me event.now }
{
    let own = who(log);
    match event {
        EventLine::Propose { log } => {
            need_own(own, Role::LogServer.party(*log))?;
            Ok(LogOrder::Propose)
        }
        EventLine::Pass { log } => {
            need_own(own, Role::LogServer.party(*log))?;
            Ok(LogOrder::Pass)
        }
        EventLine::Roll { party } => {
            need_own(own, *party)?;
            Ok(LogOrder::Roll)
        }
        _ => Err(Cause::Order),
    }
}

/// What a log does for an order in the line with this number.
fn what_of(number: u64, order: &LogOrder) -> What
    ensures { result ≡ log_what number order.now }
{
    match order {
        LogOrder::Take(_) => What::Take(number),
        LogOrder::Propose => What::Propose,
        LogOrder::Pass => What::Pass,
        LogOrder::Roll => What::Roll,
    }
}

impl LineParty for LogKeeper {
    ghost asked = { λ party line. log_asked party.core.log.me line };

    ghost sent_text = { sent_lines };

    ghost told_text = { λ party number order reply. log_told party.core.log.me number order reply };

    ghost refused_text = { λ party number order refusal. log_refused party.core.log.me number order
        refusal };

    fn read(&self, alloc: Global, line: &[u8]) -> Result<Option<LogOrder>, Unread> {
        match hear(alloc, line)? {
            Heard::Nothing => Ok(None),
            Heard::Message(bytes) => Ok(Some(LogOrder::Take(bytes))),
            Heard::Event(event) => {
                let order = order_of(self, &event)?;
                Ok(Some(order))
            }
        }
    }

    fn put_sent(&self, alloc: Global, reply: &Sent, out: &mut Vec<u8>) -> Result<(), AllocError> {
        put_messages(alloc, out, reply)
    }

    fn put_told(
        &self,
        alloc: Global,
        number: u64,
        order: &LogOrder,
        reply: &Sent,
        out: &mut Vec<u8>,
    ) -> Result<(), AllocError> {
        put_ended(alloc, out, self.number(), reply)?;
        put_step(alloc, out, who(self), what_of(number, order), None)
    }

    fn put_refused(
        &self,
        alloc: Global,
        number: u64,
        order: &LogOrder,
        refusal: &LogRefusal,
        out: &mut Vec<u8>,
    ) -> Result<(), AllocError> {
        match refusal {
            LogRefusal::Memory => Err(AllocError),
            refusal => {
                let code = log_code(*refusal);
                put_step(alloc, out, who(self), what_of(number, order), Some(code))
            }
        }
    }
}
