// Giving a binding back: slots made null, leases zeroed.
ghost use Rattle.std.specs.Prelude.{◌≡◌, ℕ, List};
ghost use Rattle.std.specs.Iterator.{IsFinite, Drains};
ghost use Rattle.binds.specs.Leases.{zeroed_span, zeroed};
ghost use Rattle.binds.specs.Cleared.{nulled, count_up};

use crate::collector::Span;
use host::{Host, HostValue};

// Makes slots null, one after the other.
#[tactic(auto, using(crate::proofs::Steps::nulled_none, crate::proofs::Steps::nulled_more))]
fn null_in_turn<X: Host, I: Iterator<Item = usize> + Drop>(host: &mut X, slots: I)
    requires can { I.can_next slots }
    requires ends { IsFinite (I.remaining slots) }
    ensures { (xs : List ℕ) × Drains I.next_gives slots xs ×
        (X.Host.meaning host.new ≡ nulled (X.Host.meaning host.old) xs) }
{
    for slot in slots {
        let _ = host.bind(slot, HostValue::null());
    }
}

// Makes each of the slots null.
pub fn null_slots<X: Host>(host: &mut X, slots: &[usize])
    ensures { X.Host.meaning host.new ≡ nulled (X.Host.meaning host.old) slots.now }
{
    null_in_turn(host, slots.iter().copied())
}

// Makes each slot of a host null.
pub fn null_every<X: Host>(host: &mut X)
    ensures { X.Host.meaning host.new ≡
        nulled (X.Host.meaning host.old) (count_up 1 (X.Host.meaning host.old).params) }
{
    let n = host.parameter_count();
    null_in_turn(host, 1..n + 1)
}

// Writes zeros over a stretch of the room.
fn zero_span(span: Span, room: &mut [u8])
    ensures { room.new ≡ zeroed_span span room.old }
{
    if span.is_inside(room.len()) {
        room[span.start..span.start + span.len].fill(0);
    }
}

// Writes zeros over each of the leases.
#[tactic(auto, using(std::proofs::lemmas::Grind::common_steps, crate::proofs::Steps::zeroed_none, crate::proofs::Steps::zeroed_more))]
pub fn zero_leases(leases: &[Span], room: &mut [u8])
    ensures { room.new ≡ zeroed leases.now room.old }
{
    for lease in leases {
        zero_span(*lease, room);
    }
}
