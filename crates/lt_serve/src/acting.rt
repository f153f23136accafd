//! Acting a command: the store's event, and the text of its reply, which is not settled.

ghost use Rattle.std.specs.Prelude.{◌≡◌, ℕ, ◌≤◌, true, None, IfErr, IfOk, IsErrOf, OnErr, OnOk, take};
ghost use Rattle.lt_language.specs.Valid.{IsWithinLimits};
ghost use Rattle.lt_line.specs.View.{view_of as command_in};
ghost use Rattle.lt_store.specs.Open.{blocks_of};
ghost use Rattle.lt_store.specs.View.{view_of};
ghost use Rattle.lt_serve.specs.Acting.{AnswersWhereOpen, IsEventOf, FailsWhereOpen};
ghost use Rattle.lt_serve.specs.Calls.{ActsOn};
ghost use Rattle.lt_serve.specs.Faults.{round_fault_of};
ghost use Rattle.lt_serve.specs.Outcomes.{HasValue, is_taken, most_text};
ghost use Rattle.lt_serve.specs.Seeing.{StopsAt, Tells};

use crate::outcomes::{add_bad, add_outcome};
use lt_device::Device;
use lt_line::{Bad, Command, Replies};
use lt_page::Page;
use lt_store::{EventView, Outcome, Store, Taken, WriteFault};
use std::alloc::Global;

/// Acts the command of a line and adds its reply. Answers whether a write was taken.
pub(super) fn act_command<D: Device>(
    store: &mut Store,
    alloc: Global,
    device: &mut D,
    command: &Command<'_>,
    value: &mut Page,
    out: &mut Replies,
) -> Result<bool, WriteFault>
    requires up { store.old.is_up ≡ true }
    requires still { (view_of store.old).work.job ≡ None }
    requires limits { IsWithinLimits (command_in command.now) }
    requires within { blocks_of (view_of store.old) ≤ D.blocks device.old }
    requires room { most_text ≤ out.old.room }

    ensures ok { IfOk result (λ taken. AnswersWhereOpen D.Device (view_of store.old) (command_in command.now)
        taken out.old out.new (view_of store.new) device.old device.new) }
    ensures err { IfErr result (λ fault. FailsWhereOpen D.Device (view_of store.old) (round_fault_of fault)
        device.old device.new) }
    ensures untold { OnErr result (out.new ≡ out.old) }
    ensures up { OnOk result (store.new.is_up ≡ true) }
    ensures still { OnOk result ((view_of store.new).work.job ≡ None) }
    ensures tells { IfOk result (λ taken. Tells (view_of store.old) (command_in command.now) taken
        out.old out.new (view_of store.new) (D.state device.old) (D.state device.new)) }
    ensures stops { (b : ℕ) → IsErrOf result (WriteFault.Damaged b)
        → StopsAt (view_of store.old) (command_in command.now) (D.state device.old) b }
    ensures device { ActsOn D.Device (view_of store.old) (view_of store.new) result
        WriteFault.Device WriteFault.Damaged device.old device.new }
{
    match event_of(*command) {
        Ok(event) => {
            let outcome = store.act(alloc, device, event, value)?;
            add_outcome(out, &outcome, found(&outcome, value));
            Ok(is_taken(&outcome))
        }
        Err(kind) => {
            add_bad(out, kind);
            Ok(false)
        }
    }
}

/// The event that a command is. A line that is refused is none.
fn event_of(command: Command<'_>) -> Result<EventView<'_>, Bad>
    ensures { IsEventOf (command_in command.entry) result }
{
    match command {
        Command::Put { key, value } => Ok(EventView::Put { key, value }),
        Command::Delete { key } => Ok(EventView::Delete { key }),
        Command::Get { key } => Ok(EventView::Get { key }),
        Command::Stat => Ok(EventView::Stat),
        Command::Bad(kind) => Err(kind),
    }
}

/// Whether a write was taken.
fn is_taken(outcome: &Outcome) -> bool
    ensures { result ≡ is_taken outcome.now }
{
    matches!(outcome, Outcome::Taken(Taken::Ok))
}

/// The value that a get found; no byte of any other outcome.
fn found<'a>(outcome: &Outcome, page: &'a Page) -> &'a [u8]
    requires { (n : ℕ) → outcome.now ≡ Outcome.Value n → n ≤ 3000 }
    ensures value { HasValue outcome.now result.now }
    ensures front { (n : ℕ) → outcome.now ≡ Outcome.Value n → result.now ≡ take n page.now }
{
    match outcome {
        Outcome::Value(len) => &page.bytes()[..usize::from(*len)],
        _ => &[],
    }
}
