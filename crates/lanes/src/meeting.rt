//! Brings the two ends of a ring together in one thread.
ghost use Rattle.std.specs.Prelude.{◌≡◌, true, is_some};
ghost use Rattle.rtrb.specs.Ring.{IsPair};
ghost use Rattle.lanes.specs.Rings.{IsFirstOf, IsReceiverAsBefore, IsSenderAsBefore, end_received, end_sent, items_received, items_sent};

use crate::Stored;
use crate::receiver::Receiver;
use crate::sender::Sender;

/// Updates what the two ends of one ring know about its free slots and its messages. Nothing is sent or
/// received. The contract states that the items received are the first of those sent, and all of them once an
/// end was received.
pub(crate) fn meet<T: Stored, E: Copy>(sender: &mut Sender<T, E>, receiver: &mut Receiver<T, E>)
    requires { IsPair sender.old.producer receiver.old.consumer }
    ensures sender { IsSenderAsBefore sender.old sender.new }
    ensures receiver { IsReceiverAsBefore receiver.old receiver.new }
    ensures first { IsFirstOf (items_received receiver.old) (items_sent sender.old) }
    ensures items { is_some (end_received receiver.old) ≡ true
        → items_received receiver.old ≡ items_sent sender.old }
    ensures ended { is_some (end_received receiver.old) ≡ true
        → end_received receiver.old ≡ end_sent sender.old }
{
    receiver.consumer.slots_beside(&mut sender.producer);
}
