//! Laws of legal transcripts, over the definitions alone: each function's contract is the law, for every
//! type of credentials and of rules, every meaning of them, every setup and every transcript.
ghost use Rattle.sequential_signer.specs.LawsOfReplies.{OneLegalTranscript, ExpectedRepliesAreLegal};
ghost use Rattle.sequential_signer.specs.LawsOfReplies.{LegalRepliesAreExpected};
ghost use Rattle.sequential_signer.specs.LawsOfHandOver.{QueuedAtTurnWasWokenOnce, OnlyQueuedCallsAreWoken};
ghost use Rattle.sequential_signer.specs.LawsOfHandOver.{OneCallLoads, SomebodyHasTheTurn};
ghost use Rattle.sequential_signer.specs.LawsOfHandOver.{LoadsExactlyWhereTheLookFails};
ghost use Rattle.sequential_signer.specs.LawsOfCancel.{CancelledLoadLeavesNoTrace, CancelChangesNoCache};
ghost use Rattle.sequential_signer.specs.LawsOfCancel.{CancelledLoadLeavesTheCache};
ghost use Rattle.sequential_signer.specs.LawsOfCaches.{CachesAreIsolated, OneLoadServesAll};
ghost use Rattle.sequential_signer.specs.LawsOfCaches.{CacheHoldsTheLastHandedOut};
ghost use Rattle.sequential_signer.specs.LawsOfCaches.{RefusedRefreshIsNotCached, FoundCredentialIsCached};

/// For a setup, events, and a choice of those that run out of memory there is at most one legal
/// transcript.
pub fn one_legal_transcript<K, D>()
    ensures { OneLegalTranscript K D }
{}

/// The events one after another, each with the expected reply, are a legal transcript of these
/// events, without allocation failures.
pub fn expected_replies_are_legal<K, D>()
    ensures { ExpectedRepliesAreLegal K D }
{}

/// The committed entries of a legal transcript have the expected replies to their events.
pub fn legal_replies_are_expected<K, D>()
    ensures { LegalRepliesAreExpected K D }
{}

/// Each queued call that has its turn was named by exactly one `wake`.
pub fn queued_at_turn_was_woken_once<K, D>()
    ensures { QueuedAtTurnWasWokenOnce K D }
{}

/// No call was named by a `wake` that was not queued then.
pub fn only_queued_calls_are_woken<K, D>()
    ensures { OnlyQueuedCallsAreWoken K D }
{}

/// Of one cache at most one call is loading.
pub fn one_call_loads<K, D>()
    ensures { OneCallLoads K D }
{}

/// Where a call of a cache is queued, the first one in the order of first polls whose hold is open has
/// its turn. So while no hold is open nobody waits.
pub fn somebody_has_the_turn<K, D>()
    ensures { SomebodyHasTheTurn K D }
{}

/// A poll of a waiting call at its turn begins a load exactly where the look at the cache finds nothing
/// that serves.
pub fn loads_exactly_where_the_look_fails<K, D>()
    ensures { LoadsExactlyWhereTheLookFails K D }
{}

/// Where a call's hold ended by a cancel, and not by a credential or a refusal, the transcript without the
/// providers' answers to it is legal too, and leaves the same caches.
pub fn cancelled_load_leaves_no_trace<K, D>()
    ensures { CancelledLoadLeavesNoTrace K D }
{}

/// A cancel changes no cache.
pub fn cancel_changes_no_cache<K, D>()
    ensures { CancelChangesNoCache K D }
{}

/// Where the cancelled call was loading, its cache is after the cancel what it was before the call's look.
pub fn cancelled_load_leaves_the_cache<K, D>()
    ensures { CancelledLoadLeavesTheCache K D }
{}

/// The entries of one cache are a legal transcript by themselves: nothing of one cache reaches another, but
/// where an allocation failed.
pub fn caches_are_isolated<K, D>()
    ensures { CachesAreIsolated K D }
{}

/// Once a credential was found and handed out at a cache, no provider of that cache is asked while the
/// credential serves each look: it is fresh, has a deadline, and lasts to it.
pub fn one_load_serves_all<K, D>()
    ensures { OneLoadServesAll K D }
{}

/// A cache holds the credential that was last handed out to one of its calls.
pub fn cache_holds_the_last_handed_out<K, D>()
    ensures { CacheHoldsTheLastHandedOut K D }
{}

/// A credential that is found and refused changes no cache.
pub fn refused_refresh_is_not_cached<K, D>()
    ensures { RefusedRefreshIsNotCached K D }
{}

/// A credential that is found and not refused is the one that is handed out, and its call's cache
/// holds it.
pub fn found_credential_is_cached<K, D>()
    ensures { FoundCredentialIsCached K D }
{}
