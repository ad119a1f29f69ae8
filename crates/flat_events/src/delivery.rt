//! What the receivers of a signal get.

ghost use Rattle.std.specs.Prelude.{◌≡◌, ◌<◌, true, IfSome};
ghost use Rattle.signal_pages.specs.Signals.{is_signalling};
ghost use Rattle.flat_state.specs.Signals.{HasRoom, sent};
ghost use Rattle.flat_state.specs.NextSteps.{is_miss};
ghost use Rattle.flat_events.specs.Readings.{delivered_unless};

use cache_ident::{ThreadNo, Vpn};
use flat_rules::{Records, Steps};
use flat_state::Signal;
use rv32_exec::Stepped;
use signal_pages::address;

/// Sends the signal of a step that went on to its receivers, if there is one.
pub(crate) fn deliver<T: Steps>(
    tables: &mut T,
    stepped: Stepped,
    signal: Option<Signal>,
    receivers: &[(ThreadNo, Vpn)],
)
    requires signal { IfSome signal (λ s. (s.offset < 4096) × (is_signalling s.offset ≡ true)) }
    requires room { HasRoom (T.state tables.old).threads receivers.now }
    ensures state { T.state tables.new ≡ record (T.state tables.old) { threads = delivered_unless (is_miss stepped) (T.state tables.old).threads signal receivers.now } }
    ensures rest { T.rest tables.new ≡ T.rest tables.old }
{
    match stepped {
        Stepped::Miss { .. } => {}
        Stepped::Next | Stepped::Call | Stepped::Stop(_) => {
            if let Some(signal) = signal {
                send(tables, signal.offset, receivers);
            }
        }
    }
}

// Gives each receiver in turn the address of the message slot in its own page. There is room for all.
fn send<T: Steps>(tables: &mut T, offset: u32, receivers: &[(ThreadNo, Vpn)])
    requires page { offset < 4096 }
    requires signalling { is_signalling offset ≡ true }
    requires room { HasRoom (T.state tables.old).threads receivers.now }
    ensures state { T.state tables.new ≡ record (T.state tables.old) { threads = sent (T.state tables.old).threads offset receivers.now } }
    ensures rest { T.rest tables.new ≡ T.rest tables.old }
{
    // What holds of the threads says that one that isn't full has room.
    tables.holds();
    for receiver in receivers {
        tables.give(receiver.0, address(receiver.1, offset));
    }
}
