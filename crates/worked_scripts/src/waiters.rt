//! Three calls that want one cache.

ghost use Rattle.worked_scripts.specs.Waiters.{WaitersReuseTheFoundCredential};
ghost use Rattle.worked_scripts.specs.Waiters.{CancelledLoadWakesTheNext, CancelledTurnWakesTheNext};
ghost use Rattle.worked_scripts.specs.Waiters.{CancelledWaiterIsPassedOver, FirstPollsSetTheOrder};
ghost use Rattle.worked_scripts.specs.Waiters.{WokenCallKeepsItsTurn, EachRefusalWakesTheNext};

/// Each waiter is handed what the first call found.
pub fn waiters_reuse_the_found_credential()
    ensures { WaitersReuseTheFoundCredential }
{}

/// A cancel of the call that loads wakes the next call, which loads for itself.
pub fn cancelled_load_wakes_the_next()
    ensures { CancelledLoadWakesTheNext }
{}

/// A woken call that is cancelled hands its turn on.
pub fn cancelled_turn_wakes_the_next()
    ensures { CancelledTurnWakesTheNext }
{}

/// A waiter that is cancelled wakes nobody.
pub fn cancelled_waiter_is_passed_over()
    ensures { CancelledWaiterIsPassedOver }
{}

/// Calls stand in the order of their first polls, and not of their begins.
pub fn first_polls_set_the_order()
    ensures { FirstPollsSetTheOrder }
{}

/// A woken call that was not polled yet keeps its turn.
pub fn woken_call_keeps_its_turn()
    ensures { WokenCallKeepsItsTurn }
{}

/// A refusal of a load, for whichever cause, wakes the next call, which loads for itself.
pub fn each_refusal_wakes_the_next()
    ensures { EachRefusalWakesTheNext }
{}
